//! A machine that lowers a term, with stacks of its own in place of recursion.
ghost use Rattle.std.specs.Prelude.{◌≡◌, ◌<◌, ◌≤◌, ◌+◌, ◌-◌, ◌∷◌, [], List, length, take, true, IfSome, OnOk, Ok, Err};
ghost use Rattle.smt_sexpr.specs.Tree.{more, none, IsLeaf};
ghost use Rattle.idl_node.specs.Nodes.{NodeValue};
ghost use Rattle.idl_scope.specs.Limits.{names_limit};
ghost use Rattle.idl_term.specs.Lowered.{lowered, lowered_leaf, lowered_list, are_bindings, is_binding};
ghost use Rattle.idl_apply.specs.code.Shapes.{Lowers};
ghost use Rattle.idl_term.specs.code.Trees.{tree_of, trees_of, IsTree, AreTrees, size_of, sizes_of};
ghost use Rattle.idl_term.specs.code.Walks.{at_start, AreNamesBefore, IsReady, IsReadyWith, IsWaiting, Steps, outcome, outcome_of, outcome_behind, outcome_behind_names, outcome_from, scope_at, weight, with_frame, let_made, application_made, bound_to};
ghost use Rattle.idl_apply.specs.Operators.{takes_count};
ghost use Rattle.idl_apply.specs.declared.error.TermError.TheVariants.{Refused};
ghost use Rattle.idl_apply.specs.declared.error.TermRefusal.TheVariants.{IllFormedTerm};
ghost use Rattle.idl_term.specs.declared.machine.Frame.TheVariants.{Apply, Bind};

use crate::binding::let_parts;
use crate::head::{Head, head_of};
use crate::leaf::{lower_leaf, lower_names};
use idl_apply::{Operator, TermError, TermRefusal, apply};
use idl_node::Nodes;
use idl_scope::{Locals, Lowered, Scope};
use smt_lex::TokenKind;
use smt_sexpr::{SexprId, Sexprs};
use std::alloc::{AllocError, Global};
use std::marker::Model;

/// What is to be done with a value that is made.
#[derive(Clone, Copy)]
enum Frame<'s> {
    /// An application: the arguments that are to come, and where the values of the others begin.
    Apply {
        operator: Operator,
        rest: &'s [SexprId],
        base: usize,
    },
    /// A `let`: the bindings whose terms are to come, and where the values of the others begin.
    Bind {
        bindings: &'s [SexprId],
        rest: &'s [SexprId],
        body: SexprId,
        base: usize,
    },
    /// The end of a `let` of so many variables.
    Unbind(usize),
}

fn ill_formed() -> TermError
    ensures { result ≡ Refused IllFormedTerm }
{
    TermError::Refused(TermRefusal::IllFormedTerm)
}

/// The names of two symbols at the front, and what is behind them.
fn names_at_front<'s, 'a>(
    sexprs: &Sexprs<'a>,
    arguments: &'s [SexprId],
) -> Option<(&'a [u8], &'a [u8], &'s [SexprId])>
    requires { AreTrees sexprs.now arguments.now }
    ensures { IfSome result (λ p. AreNamesBefore sexprs.now arguments.now p.0.now p.1.now p.2.now) }
{
    match arguments {
        [first, second, others @ ..] => {
            let first_name = sexprs.symbol(*first)?;
            let second_name = sexprs.symbol(*second)?;
            Some((first_name, second_name, others))
        }
        _ => None,
    }
}

#[derive(Drop)]
pub(crate) struct Machine<'s, 'a> {
    alloc: Global,
    sexprs: &'s Sexprs<'a>,
    locals: Locals<'s, 'a>,
    /// The innermost last.
    frames: Vec<Frame<'s>>,
    values: Vec<Lowered>,
}

impl<'s, 'a> Model for Machine<'s, 'a> {
    ghost use Rattle.std.specs.Prelude.{reverse};
    ghost use Rattle.idl_term.specs.code.Walks.{Walk};
    ghost use Rattle.idl_scope.specs.Scopes.{shown_terms};

    ghost Value = { Walk };

    ghost view = { λ m. record {
      table = m.sexprs.now;
      inner = m.locals;
      frames = reverse m.frames.items;
      values = shown_terms m.values.items;
    } };
}

impl<'s, 'a> Machine<'s, 'a> {
    pub(crate) fn new(alloc: Global, sexprs: &'s Sexprs<'a>, scope: &'s Scope<'a>) -> Self
        ensures { result ≡ at_start sexprs.now scope.now }
    {
        Machine {
            alloc,
            sexprs,
            locals: Locals::new(alloc, scope),
            frames: Vec::new(alloc),
            values: Vec::new(alloc),
        }
    }

    /// A term of one token is made.
    fn enter_leaf(
        &mut self,
        kind: TokenKind,
        text: &[u8],
        nodes: &mut Nodes,
    ) -> Result<(), TermError>
        requires leaf { IsLeaf kind text.now }
        requires ready { IsWaiting self.old }
        ensures steps { Steps (outcome_behind self.old
            (lowered_leaf (scope_at self.old) nodes.old kind text.now))
            (weight self.old.table self.old.frames + 1) self.old self.new nodes.new result }
        ensures front { take (length nodes.old) nodes.new ≡ nodes.old }
    {
        let value = lower_leaf(self.alloc, kind, text, &self.locals, nodes)?;
        self.values.push(value)?;
        Ok(())
    }

    /// The terms of two names are made.
    fn enter_names(
        &mut self,
        first: &[u8],
        second: &[u8],
        nodes: &mut Nodes,
    ) -> Result<(), TermError>
        requires ready { IsReadyWith (length self.old.values + 2) self.old }
        ensures steps { Steps (outcome_behind_names self.old nodes.old first.now second.now)
            (weight self.old.table self.old.frames + 1) self.old self.new nodes.new result }
        ensures front { take (length nodes.old) nodes.new ≡ nodes.old }
    {
        let (first_term, second_term) = lower_names(first, second, &self.locals, nodes)?;
        self.values.push(first_term)?;
        self.values.push(second_term)?;
        Ok(())
    }

    /// An application is opened.
    fn enter_application(
        &mut self,
        operator: Operator,
        arguments: &'s [SexprId],
    ) -> Result<(), TermError>
        requires trees { AreTrees self.old.table arguments.now }
        requires ready { IsWaiting self.old }
        ensures { (nodes : List NodeValue)
            → Steps (outcome_behind self.old
            (application_made operator (scope_at self.old) nodes (trees_of self.old.table arguments.now)))
            (weight self.old.table self.old.frames +
            (3 + sizes_of (trees_of self.old.table arguments.now))) self.old self.new nodes result }
    {
        if !operator.takes_count(arguments.len()) {
            return Err(TermError::Refused(TermRefusal::WrongCount));
        }
        let base = self.values.len();
        self.frames.push(Frame::Apply {
            operator,
            rest: arguments,
            base,
        })?;
        Ok(())
    }

    /// A `let` is opened.
    fn enter_let(&mut self, items: &'s [SexprId]) -> Result<(), TermError>
        requires trees { AreTrees self.old.table items.now }
        requires ready { IsWaiting self.old }
        ensures { (nodes : List NodeValue)
            → Steps (outcome_behind self.old
            (let_made (scope_at self.old) nodes (trees_of self.old.table items.now)))
            (weight self.old.table self.old.frames + (3 + sizes_of (trees_of self.old.table items.now)))
            self.old self.new nodes result }
    {
        let Some(parts) = let_parts(self.alloc, self.sexprs, items)? else {
            return Err(ill_formed());
        };
        let base = self.values.len();
        self.frames.push(Frame::Bind {
            bindings: parts.bindings,
            rest: parts.bindings,
            body: parts.body,
            base,
        })?;
        Ok(())
    }

    /// A list is opened.
    fn enter_list(&mut self, items: &'s [SexprId]) -> Result<(), TermError>
        requires trees { AreTrees self.old.table items.now }
        requires ready { IsWaiting self.old }
        ensures { (nodes : List NodeValue)
            → Steps (outcome_behind self.old
            (lowered_list (scope_at self.old) nodes (trees_of self.old.table items.now)))
            (weight self.old.table self.old.frames + (3 + sizes_of (trees_of self.old.table items.now)))
            self.old self.new nodes result }
    {
        let Some((head, arguments)) = items.split_first() else {
            return Err(ill_formed());
        };
        match head_of(self.sexprs, *head, &self.locals) {
            Head::Operator(operator) => self.enter_application(operator, arguments),
            Head::Let => self.enter_let(arguments),
            Head::Refused(why) => Err(TermError::Refused(why)),
        }
    }

    /// A term of one token is made, or a list is opened.
    fn enter(&mut self, id: SexprId, nodes: &mut Nodes) -> Result<(), TermError>
        requires tree { IsTree self.old.table id }
        requires ready { IsWaiting self.old }
        ensures steps { Steps (outcome_from self.old nodes.old id)
            (weight self.old.table self.old.frames + size_of (tree_of self.old.table id)) self.old self.new
            nodes.new result }
        ensures front { take (length nodes.old) nodes.new ≡ nodes.old }
    {
        if let Some(items) = self.sexprs.items(id) {
            return self.enter_list(items);
        }
        match self.sexprs.leaf(id) {
            Some((kind, text)) => self.enter_leaf(kind, text, nodes),
            None => Err(ill_formed()),
        }
    }

    /// All arguments are made.
    fn finish_application(
        &mut self,
        operator: Operator,
        base: usize,
        nodes: &mut Nodes,
    ) -> Result<(), TermError>
        requires ready { IsReadyWith (base + 1) self.old }
        requires base { base ≤ length self.old.values }
        requires count { takes_count operator (length self.old.values - base) ≡ true }
        ensures steps { Steps (outcome_of operator base self.old nodes.old)
            (weight self.old.table self.old.frames + 1) self.old self.new nodes.new result }
        ensures front { take (length nodes.old) nodes.new ≡ nodes.old }
    {
        let value = apply(self.alloc, operator, nodes, &self.values[base..])?;
        self.values.truncate(base);
        self.values.push(value)?;
        Ok(())
    }

    /// An application goes on with its next argument, or ends.
    fn go_on_applying(
        &mut self,
        operator: Operator,
        rest: &'s [SexprId],
        base: usize,
        nodes: &mut Nodes,
    ) -> Result<(), TermError>
        requires ready { IsReady (with_frame (Apply operator rest base) self.old) }
        ensures steps { Steps (outcome (with_frame (Apply operator rest.entry base) self.old) nodes.old)
            (weight self.old.table (Apply operator rest.entry base ∷ self.old.frames)) self.old self.new
            nodes.new result }
        ensures front { take (length nodes.old) nodes.new ≡ nodes.old }
    {
        if let Some((first, second, others)) = names_at_front(self.sexprs, rest) {
            self.frames.push(Frame::Apply {
                operator,
                rest: others,
                base,
            })?;
            return self.enter_names(first, second, nodes);
        }
        let Some((argument, rest)) = rest.split_first() else {
            return self.finish_application(operator, base, nodes);
        };
        self.frames.push(Frame::Apply {
            operator,
            rest,
            base,
        })?;
        self.enter(*argument, nodes)
    }

    /// The variable of a binding is bound to the last value.
    fn bind_last(&mut self, binding: SexprId) -> Result<(), AllocError>
        requires tree { IsTree self.old.table binding }
        requires binding { is_binding (tree_of self.old.table binding) ≡ true }
        requires some { 0 < length self.old.values }
        ensures { OnOk result (self.new ≡ bound_to (more (tree_of self.old.table binding) none)
            (length self.old.values - 1) self.old) }
    {
        let variable = self.sexprs.item(binding, 0);
        if let Some(name) = self.sexprs.symbol(variable)
            && let Some(term) = self.values.pop()
        {
            self.locals.bind(name, term)?;
        }
        Ok(())
    }

    /// The variables of all bindings are bound to the values from base on. The first variable is the innermost.
    fn bind_variables(&mut self, bindings: &[SexprId], base: usize) -> Result<(), AllocError>
        requires trees { AreTrees self.old.table bindings.now }
        requires bindings { are_bindings (trees_of self.old.table bindings.now) ≡ true }
        requires values { base + length bindings.now ≡ length self.old.values }
        ensures { OnOk result (self.new ≡ bound_to (trees_of self.old.table bindings.now) base self.old) }
    {
        let mut rest = bindings;
        while let Some((binding, others)) = rest.split_last() {
            self.bind_last(*binding)?;
            rest = others;
        }
        Ok(())
    }

    /// A `let` goes on with its next binding, or with its body.
    fn go_on_binding(
        &mut self,
        bindings: &'s [SexprId],
        rest: &'s [SexprId],
        body: SexprId,
        base: usize,
        nodes: &mut Nodes,
    ) -> Result<(), TermError>
        requires ready { IsReady (with_frame (Bind bindings rest body base) self.old) }
        ensures steps { Steps (outcome (with_frame (Bind bindings.entry rest.entry body base) self.old)
            nodes.old) (weight self.old.table (Bind bindings.entry rest.entry body base ∷ self.old.frames))
            self.old self.new nodes.new result }
        ensures front { take (length nodes.old) nodes.new ≡ nodes.old }
    {
        let Some((binding, rest)) = rest.split_first() else {
            self.bind_variables(bindings, base)?;
            self.frames.push(Frame::Unbind(bindings.len()))?;
            return self.enter(body, nodes);
        };
        self.frames.push(Frame::Bind {
            bindings,
            rest,
            body,
            base,
        })?;
        let term = self.sexprs.item(*binding, 1);
        self.enter(term, nodes)
    }

    /// A frame goes on, where the value that it waits for is the last.
    fn go_on(&mut self, frame: Frame<'s>, nodes: &mut Nodes) -> Result<(), TermError>
        requires ready { IsReady (with_frame frame self.old) }
        ensures steps { Steps (outcome (with_frame frame.entry self.old) nodes.old)
            (weight self.old.table (frame.entry ∷ self.old.frames)) self.old self.new nodes.new result }
        ensures front { take (length nodes.old) nodes.new ≡ nodes.old }
    {
        match frame {
            Frame::Apply {
                operator,
                rest,
                base,
            } => self.go_on_applying(operator, rest, base, nodes),
            Frame::Bind {
                bindings,
                rest,
                body,
                base,
            } => self.go_on_binding(bindings, rest, body, base, nodes),
            Frame::Unbind(count) => {
                self.locals.unbind(count);
                Ok(())
            }
        }
    }

    /// Lowers the term of an id. After an error the table may be longer.
    pub(crate) fn run(&mut self, id: SexprId, nodes: &mut Nodes) -> Result<Lowered, TermError>
        requires tree { IsTree self.old.table id }
        requires frames { self.old.frames ≡ [] }
        requires values { self.old.values ≡ [] }
        requires few { length self.old.inner.outer.declared ≤ names_limit }
        ensures lowers { Lowers nodes.new
            (lowered (scope_at self.old) nodes.old (tree_of self.old.table id)) result }
        ensures front { take (length nodes.old) nodes.new ≡ nodes.old }
    {
        self.enter(id, nodes)?;
        while let Some(frame) = self.frames.pop() {
            self.go_on(frame, nodes)?;
        }
        let Some(value) = self.values.pop() else {
            return Err(ill_formed());
        };
        Ok(value)
    }
}
