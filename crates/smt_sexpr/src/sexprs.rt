//! The table, its parts and its readers.
ghost use Rattle.std.specs.Prelude.{◌≡◌, ◌<◌, ◌≤◌, ◌++◌, length, IfSome, IfOk, Ok, Err, OnOk, OnErr, Some, None, [], ℕ, IsTrue, option_map};
ghost use Rattle.smt_lex.specs.declared.token.LexError.{LexError};
ghost use Rattle.smt_lex.specs.Grammar.{is_numeral};
ghost use Rattle.smt_sexpr.specs.Tree.{Sexpr, leaf_of, symbol_of, keyword_of, numeral_of, item_of};
ghost use Rattle.smt_sexpr.specs.Table.{Means, HasMeaning, HasItem, IsNodeOf, ItemsAre, Grows};
ghost use Rattle.smt_sexpr.specs.Reading.{Finds, failed_of};
ghost use Rattle.smt_sexpr.specs.Printing.{text_of};
ghost use Rattle.smt_sexpr.specs.Shapes.{is_symbol, HeadIs};

use crate::error::{SexprError, SexprRefusal};
use crate::node::{Node, SexprId};
use crate::printer::write;
use crate::reader::{Frame, read};
use crate::text::leaf_text;
use smt_lex::{Lexer, TokenKind};
use std::alloc::{AllocError, Global};
use std::marker::Model;

/// S-expressions in a flat table, over the bytes that they were read from.
///
/// An id stays good until `clear`. Nothing is copied from the bytes.
pub struct Sexprs<'a> {
    alloc: Global,
    bytes: &'a [u8],
    nodes: Vec<Node>,
    items: Vec<SexprId>,
    /// Room for the lists that are open while one is read, and for their items.
    stack: Vec<Frame>,
    pending: Vec<SexprId>,
}

impl Drop for Sexprs<'_> {
    fn drop(self) {
        let Sexprs {
            alloc: _,
            bytes: _,
            nodes,
            items,
            stack,
            pending,
        } = self;
        drop(nodes);
        drop(items);
        drop(stack);
        drop(pending);
    }
}

impl<'a> Model for Sexprs<'a> {
    ghost use Rattle.smt_sexpr.specs.Table.{Table};

    ghost Value = { Table };

    ghost view = { λ s. record { bytes = s.bytes.now; nodes = s.nodes.items; items = s.items.items } };
}

impl<'a> Sexprs<'a> {
    /// An empty table over these bytes.
    pub fn new(alloc: Global, bytes: &'a [u8]) -> Self
        ensures { result ≡ record { bytes = bytes.now; nodes = []; items = [] } }
    {
        Sexprs {
            alloc,
            bytes,
            nodes: Vec::new(alloc),
            items: Vec::new(alloc),
            stack: Vec::new(alloc),
            pending: Vec::new(alloc),
        }
    }

    /// Reads the next s-expression, or gives `None` at the end of the text.
    ///
    /// After an error of the lexer each call gives that error again. Want of memory leaves table and lexer as they
    /// were.
    pub fn read_one(&mut self, lexer: &mut Lexer) -> Result<Option<SexprId>, SexprError>
        requires same { lexer.old.bytes ≡ self.old.bytes }
        ensures finds { lexer.old.failed ≡ None → Finds self.new lexer.old.place result lexer.new.place }
        ensures failed { lexer.old.failed ≡ None → lexer.new.failed ≡ failed_of result }
        ensures forward { (id : ℕ) → result ≡ Ok (Some id) → lexer.old.place < lexer.new.place }
        ensures within { lexer.old.failed ≡ None → lexer.new.place ≤ length lexer.new.bytes }
        ensures again { (e : LexError) → lexer.old.failed ≡ Some e
            → (result ≡ Err (SexprError.Refused (SexprRefusal.Lex e))) × (lexer.new ≡ lexer.old) }
        ensures bytes { lexer.new.bytes ≡ lexer.old.bytes }
        ensures grows { Grows self.old self.new }
        // Only an s-expression adds to the table.
        ensures end { result ≡ Ok None → self.new ≡ self.old }
        ensures err { OnErr result (self.new ≡ self.old) }
        ensures memory { result ≡ Err SexprError.OutOfMemory → lexer.new ≡ lexer.old }
    {
        if let Some(error) = lexer.error() {
            return Err(SexprError::Refused(SexprRefusal::Lex(error)));
        }
        let lexer_before = lexer.copy();
        let nodes_before = self.nodes.len();
        let items_before = self.items.len();
        self.stack.clear();
        self.pending.clear();
        let result = read(
            &mut self.stack,
            &mut self.pending,
            &mut self.nodes,
            &mut self.items,
            lexer,
        );
        if result.is_err() {
            self.nodes.truncate(nodes_before);
            self.items.truncate(items_before);
        }
        if let Err(SexprError::OutOfMemory) = result {
            *lexer = lexer_before;
        }
        result
    }

    /// Forgets all s-expressions and keeps the room that they had.
    pub fn clear(&mut self)
        ensures { self.new ≡ record { bytes = self.old.bytes; nodes = []; items = [] } }
    {
        self.nodes.clear();
        self.items.clear();
    }

    /// The s-expression as it stands in the table.
    pub fn node(&self, id: SexprId) -> Node
        requires { HasMeaning self.now id }
        ensures { (x : Sexpr) → Means self.now id x → IsNodeOf self.now x result }
    {
        self.nodes[id]
    }

    /// The ids of a list's items in order, or `None` for a leaf.
    pub fn items(&self, id: SexprId) -> Option<&[SexprId]>
        requires { HasMeaning self.now id }
        ensures { (x : Sexpr) → Means self.now id x
            → ItemsAre self.now x (option_map (λ ids. ids.now) result) }
    {
        match self.node(id) {
            Node::Leaf(_) => None,
            Node::List(first, count) => Some(&self.items[first..first + count]),
        }
    }

    /// The id of a list's item, counted from 0.
    pub fn item(&self, id: SexprId, k: usize) -> SexprId
        requires { HasItem self.now id k }
        ensures { (x y : Sexpr) → Means self.now id x → item_of x k ≡ Some y → Means self.now result y }
    {
        match self.node(id) {
            Node::List(first, _) => self.items[first + k],
            Node::Leaf(_) => 0,
        }
    }

    /// A leaf's kind and its text, of a quoted symbol without the bars; `None` for a list.
    pub fn leaf(&self, id: SexprId) -> Option<(TokenKind, &'a [u8])>
        requires { HasMeaning self.now id }
        ensures { (x : Sexpr) → Means self.now id x
            → option_map (λ leaf. (leaf.0, leaf.1.now)) result ≡ leaf_of x }
    {
        match self.node(id) {
            Node::Leaf(token) => Some((token.kind, leaf_text(self.bytes, token))),
            Node::List(_, _) => None,
        }
    }

    /// A symbol's bytes without bars, or `None` for all else.
    pub fn symbol(&self, id: SexprId) -> Option<&'a [u8]>
        requires { HasMeaning self.now id }
        ensures { (x : Sexpr) → Means self.now id x → option_map (λ text. text.now) result ≡ symbol_of x }
    {
        match self.leaf(id) {
            Some((TokenKind::Symbol, text)) => Some(text),
            _ => None,
        }
    }

    /// A keyword's bytes with its colon, or `None` for all else.
    pub fn keyword(&self, id: SexprId) -> Option<&'a [u8]>
        requires { HasMeaning self.now id }
        ensures { (x : Sexpr) → Means self.now id x → option_map (λ text. text.now) result ≡ keyword_of x }
    {
        match self.leaf(id) {
            Some((TokenKind::Keyword, text)) => Some(text),
            _ => None,
        }
    }

    /// A numeral's digits, or `None` for all else.
    pub fn numeral(&self, id: SexprId) -> Option<&'a [u8]>
        requires { HasMeaning self.now id }
        ensures value { (x : Sexpr) → Means self.now id x
            → option_map (λ text. text.now) result ≡ numeral_of x }
        ensures digits { IfSome result (λ text. IsTrue (is_numeral text.now)) }
    {
        match self.leaf(id) {
            Some((TokenKind::Numeral, text)) => Some(text),
            _ => None,
        }
    }

    /// Whether it is this symbol.
    pub fn is_symbol(&self, id: SexprId, text: &[u8]) -> bool
        requires { HasMeaning self.now id }
        ensures { (x : Sexpr) → Means self.now id x → result ≡ is_symbol text.now x }
    {
        match self.symbol(id) {
            Some(name) => name == text,
            None => false,
        }
    }

    /// Of a list that begins with a symbol: its bytes, and the ids of what follows it.
    pub fn headed(&self, id: SexprId) -> Option<(&'a [u8], &[SexprId])>
        requires { HasMeaning self.now id }
        ensures { (x : Sexpr) → Means self.now id x
            → HeadIs self.now x (option_map (λ p. (p.0.now, p.1.now)) result) }
    {
        match self.items(id) {
            Some([head, rest @ ..]) => Some((self.symbol(*head)?, rest)),
            _ => None,
        }
    }

    /// Appends the s-expression as it is written: one space between the items of a list, bars where they are needed.
    pub fn print(&self, id: SexprId, out: &mut Vec<u8>) -> Result<(), AllocError>
        requires { HasMeaning self.now id }
        ensures ok { OnOk result ((x : Sexpr) → Means self.now id x
            → out.new.items ≡ out.old.items ++ text_of x) }
        ensures err { OnErr result (out.new.items ≡ out.old.items) }
    {
        let before = out.len();
        let result = write(self.alloc, self, id, out);
        if result.is_err() {
            out.truncate(before);
        }
        result
    }
}
