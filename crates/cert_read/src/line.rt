//! What stands in place of an entry, read item by item: the table never holds more than one item of the entry.
ghost use Rattle.std.specs.Prelude.{◌≡◌, ◌^◌, ◌-◌, ◌<◌, ◌≤◌, length, None};
ghost use Rattle.std.specs.Prelude.{IfOk, OnOk, IfErr, IfSome, IsNone, IsSome};
ghost use Rattle.smt_sexpr.specs.Tree.{Sexpr, Items as Several, none};
ghost use Rattle.smt_sexpr.specs.Table.{Means, HasMeaning};
ghost use Rattle.cert_read.specs.Certificates.{ErrorSays, RefusesBehind};
ghost use Rattle.cert_read.specs.Parts.{best_from, unbounded_from};
ghost use Rattle.cert_read.specs.code.Lines.{LineIs, IsNext, Closed, NeverCloses, IsListOf, LacksList, HasItems};
ghost use Rattle.cert_read.specs.code.Lines.{AreLeft, LacksAll, LacksFirst};
ghost use Rattle.cert_read.specs.code.Quick.{ReadsOne, ReadsTo};
ghost use Rattle.cert_read.specs.code.Lines.{head_of, IsLineOf, IsNoLine, IfIllFormed};

use crate::error::{CertReadError, CertificateRefusal, PartError};
use crate::part::Part;
use crate::quick::Quick;
use best_values::Points;
use cert_text::{FileEntry, Version};
use kept_lemmas::Items;
use smt_lex::{Lexer, TokenKind};
use smt_sexpr::{SexprError, SexprId, SexprRefusal, Sexprs};
use std::alloc::{AllocError, Global};
use stn_core::{NamedValues, Schedule, Value};

/// What stands in place of an entry.
pub(crate) enum Line {
    Shown(FileEntry),
    End,
}

/// What a list is by its first item.
#[derive(Clone, Copy)]
enum Head {
    Sat,
    Unsat,
    Best,
    Unbounded,
    End,
    Other,
}

fn head_of(table: &Sexprs, id: SexprId) -> Head
    requires { HasMeaning table.now id }
    ensures { (x : Sexpr) → Means table.now id x → result ≡ head_of x }
{
    if table.is_symbol(id, b"sat") {
        Head::Sat
    } else if table.is_symbol(id, b"unsat") {
        Head::Unsat
    } else if table.is_symbol(id, b"best") {
        Head::Best
    } else if table.is_symbol(id, b"unbounded") {
        Head::Unbounded
    } else if table.is_symbol(id, b"end") {
        Head::End
    } else {
        Head::Other
    }
}

/// The next item of an open list, alone in the table, or `None` where the list's own parenthesis was next and is read.
fn next_item(table: &mut Sexprs, lexer: &mut Lexer) -> Result<Option<SexprId>, PartError>
    requires fresh { lexer.old.failed ≡ None }
    requires same { lexer.old.bytes ≡ table.old.bytes }
    ensures next { IfOk result (λ next. IsNext table.new lexer.old.bytes lexer.old.place next lexer.new.place) }
    ensures err { IfErr result (IfIllFormed (NeverCloses lexer.old.bytes lexer.old.place)) }
    ensures fresh { OnOk result (lexer.new.failed ≡ None) }
    ensures forward { OnOk result (lexer.old.place < lexer.new.place) }
    ensures within { OnOk result (lexer.new.place ≤ length lexer.new.bytes) }
    ensures lexer_bytes { lexer.new.bytes ≡ lexer.old.bytes }
    ensures table_bytes { table.new.bytes ≡ table.old.bytes }
{
    table.clear();
    match table.read_one(lexer) {
        Ok(Some(id)) => Ok(Some(id)),
        Ok(None) => Err(PartError::IllFormed),
        Err(SexprError::Refused(SexprRefusal::StrayClose(_))) => Ok(None),
        Err(SexprError::Refused(SexprRefusal::UnclosedList(_))) => Err(PartError::IllFormed),
        Err(SexprError::Refused(SexprRefusal::Lex(_))) => Err(PartError::IllFormed),
        Err(SexprError::OutOfMemory) => Err(PartError::OutOfMemory),
    }
}

/// Reads an open list to its end, whatever its items are.
fn skip_items(table: &mut Sexprs, lexer: &mut Lexer) -> Result<(), PartError>
    requires fresh { lexer.old.failed ≡ None }
    requires same { lexer.old.bytes ≡ table.old.bytes }
    ensures ok { OnOk result ((xs : Several) × Closed lexer.old.bytes lexer.old.place xs lexer.new.place) }
    ensures err { IfErr result (IfIllFormed (NeverCloses lexer.old.bytes lexer.old.place)) }
    ensures fresh { OnOk result (lexer.new.failed ≡ None) }
    ensures within { OnOk result (lexer.new.place ≤ length lexer.new.bytes) }
    ensures lexer_bytes { lexer.new.bytes ≡ lexer.old.bytes }
    ensures table_bytes { table.new.bytes ≡ table.old.bytes }
{
    while let Some(_) = next_item(table, lexer)? {}
    Ok(())
}

/// The item that is next, where it can be read straight from the bytes; else the lexer stays.
fn quick_item<T: Quick>(
    alloc: Global,
    version: Version,
    lexer: &mut Lexer,
) -> Result<Option<T>, AllocError>
    ensures some { IfOk result (λ o. IfSome o (λ part.
        ReadsOne (T.meant version) lexer.old.bytes lexer.old.place part lexer.new.place)) }
    ensures none { IfOk result (λ o. IsNone o → lexer.new ≡ lexer.old) }
    ensures failed { lexer.new.failed ≡ lexer.old.failed }
    ensures forward { IfOk result (λ o. IsSome o → lexer.old.place < lexer.new.place) }
    ensures within { OnOk result (lexer.new.place ≤ length lexer.new.bytes) }
    ensures lexer_bytes { lexer.new.bytes ≡ lexer.old.bytes }
{
    smt_sexpr::reads_back();
    let bytes = &lexer.bytes()[lexer.place()..];
    match T::quick(alloc, version, bytes)? {
        Some((part, rest)) => {
            lexer.skip(bytes.len() - rest.len());
            Ok(Some(part))
        }
        None => Ok(None),
    }
}

/// The items of an open list up to the first one that can't be read straight from the bytes.
fn quick_items<T: Quick + Drop>(
    alloc: Global,
    version: Version,
    lexer: &mut Lexer,
) -> Result<Vec<T>, AllocError>
    ensures items { IfOk result (λ parts.
        ReadsTo (T.meant version) lexer.old.bytes lexer.old.place parts.items lexer.new.place) }
    ensures failed { OnOk result (lexer.new.failed ≡ lexer.old.failed) }
    ensures lexer_bytes { lexer.new.bytes ≡ lexer.old.bytes }
{
    let mut parts = Vec::new(alloc);
    while let Some(part) = quick_item(alloc, version, lexer)? {
        parts.push(part)?;
    }
    Ok(parts)
}

/// What the items of an open list stand for, to the list's end.
///
/// A list with an item that stands for nothing is read to its end too, since it may have none.
fn read_items<T: Quick + Drop>(
    alloc: Global,
    version: Version,
    table: &mut Sexprs,
    lexer: &mut Lexer,
) -> Result<Vec<T>, PartError>
    requires fresh { lexer.old.failed ≡ None }
    requires same { lexer.old.bytes ≡ table.old.bytes }
    ensures ok { IfOk result (λ parts. IsListOf (T.meant version) lexer.old.bytes lexer.old.place parts.items lexer.new.place) }
    ensures err { IfErr result (IfIllFormed (LacksList (T.meant version) lexer.old.bytes lexer.old.place)) }
    ensures fresh { OnOk result (lexer.new.failed ≡ None) }
    ensures within { OnOk result (lexer.new.place ≤ length lexer.new.bytes) }
    ensures lexer_bytes { lexer.new.bytes ≡ lexer.old.bytes }
    ensures table_bytes { table.new.bytes ≡ table.old.bytes }
{
    let mut parts = quick_items(alloc, version, lexer)?;
    while let Some(id) = next_item(table, lexer)? {
        match T::read(alloc, version, table, id) {
            Ok(part) => parts.push(part)?,
            Err(PartError::IllFormed) => {
                skip_items(table, lexer)?;
                return Err(PartError::IllFormed);
            }
            Err(PartError::OutOfMemory) => return Err(PartError::OutOfMemory),
        }
    }
    Ok(parts)
}

/// What the next item of an open list stands for.
///
/// A list whose next item stands for nothing is read to its end, since it may have none.
fn read_part<T: Part + Drop>(
    alloc: Global,
    version: Version,
    table: &mut Sexprs,
    lexer: &mut Lexer,
) -> Result<T, PartError>
    requires fresh { lexer.old.failed ≡ None }
    requires same { lexer.old.bytes ≡ table.old.bytes }
    ensures ok { IfOk result (λ part. ReadsOne (T.meant version) lexer.old.bytes lexer.old.place part lexer.new.place) }
    ensures err { IfErr result (IfIllFormed (LacksFirst (T.meant version) lexer.old.bytes lexer.old.place)) }
    ensures fresh { OnOk result (lexer.new.failed ≡ None) }
    ensures lexer_bytes { lexer.new.bytes ≡ lexer.old.bytes }
    ensures table_bytes { table.new.bytes ≡ table.old.bytes }
{
    let id = match next_item(table, lexer)? {
        None => return Err(PartError::IllFormed),
        Some(id) => id,
    };
    match T::read(alloc, version, table, id) {
        Ok(part) => Ok(part),
        Err(PartError::IllFormed) => {
            skip_items(table, lexer)?;
            Err(PartError::IllFormed)
        }
        Err(PartError::OutOfMemory) => Err(PartError::OutOfMemory),
    }
}

/// Reads the end of a list that has no more items.
fn read_close(table: &mut Sexprs, lexer: &mut Lexer) -> Result<(), PartError>
    requires fresh { lexer.old.failed ≡ None }
    requires same { lexer.old.bytes ≡ table.old.bytes }
    ensures ok { OnOk result (Closed lexer.old.bytes lexer.old.place none lexer.new.place) }
    ensures err { IfErr result (IfIllFormed (HasItems lexer.old.bytes lexer.old.place)) }
    ensures fresh { OnOk result (lexer.new.failed ≡ None) }
    ensures within { OnOk result (lexer.new.place ≤ length lexer.new.bytes) }
    ensures lexer_bytes { lexer.new.bytes ≡ lexer.old.bytes }
    ensures table_bytes { table.new.bytes ≡ table.old.bytes }
{
    match next_item(table, lexer)? {
        None => Ok(()),
        Some(_) => {
            skip_items(table, lexer)?;
            Err(PartError::IllFormed)
        }
    }
}

/// An entry of a least value, behind its head.
fn read_best(
    alloc: Global,
    version: Version,
    table: &mut Sexprs,
    lexer: &mut Lexer,
) -> Result<FileEntry, PartError>
    requires fresh { lexer.old.failed ≡ None }
    requires same { lexer.old.bytes ≡ table.old.bytes }
    ensures ok { IfOk result (λ entry. AreLeft (best_from version) lexer.old.bytes lexer.old.place entry lexer.new.place) }
    ensures err { IfErr result (IfIllFormed (LacksAll (best_from version) lexer.old.bytes lexer.old.place)) }
    ensures fresh { OnOk result (lexer.new.failed ≡ None) }
    ensures within { OnOk result (lexer.new.place ≤ length lexer.new.bytes) }
    ensures lexer_bytes { lexer.new.bytes ≡ lexer.old.bytes }
    ensures table_bytes { table.new.bytes ≡ table.old.bytes }
{
    let least: Value = read_part(alloc, version, table, lexer)?;
    let values: NamedValues = read_part(alloc, version, table, lexer)?;
    let items = read_items(alloc, version, table, lexer)?;
    Ok(FileEntry::Best(least, values, Items::new(items)))
}

/// An entry of a term without a least value, behind its head.
fn read_unbounded(
    alloc: Global,
    version: Version,
    table: &mut Sexprs,
    lexer: &mut Lexer,
) -> Result<FileEntry, PartError>
    requires fresh { lexer.old.failed ≡ None }
    requires same { lexer.old.bytes ≡ table.old.bytes }
    ensures ok { IfOk result (λ entry. AreLeft unbounded_from lexer.old.bytes lexer.old.place entry lexer.new.place) }
    ensures err { IfErr result (IfIllFormed (LacksAll unbounded_from lexer.old.bytes lexer.old.place)) }
    ensures fresh { OnOk result (lexer.new.failed ≡ None) }
    ensures within { OnOk result (lexer.new.place ≤ length lexer.new.bytes) }
    ensures lexer_bytes { lexer.new.bytes ≡ lexer.old.bytes }
    ensures table_bytes { table.new.bytes ≡ table.old.bytes }
{
    let values: Schedule = read_part(alloc, version, table, lexer)?;
    let points: Points = read_part(alloc, version, table, lexer)?;
    read_close(table, lexer)?;
    Ok(FileEntry::Unbounded(values, points))
}

/// The entry or the end, behind its opening parenthesis.
fn read_opened(
    alloc: Global,
    version: Version,
    table: &mut Sexprs,
    lexer: &mut Lexer,
) -> Result<Line, PartError>
    requires fresh { lexer.old.failed ≡ None }
    requires same { lexer.old.bytes ≡ table.old.bytes }
    ensures ok { IfOk result (λ line. IsLineOf version lexer.old.bytes lexer.old.place line lexer.new.place) }
    ensures err { IfErr result (IfIllFormed (IsNoLine version lexer.old.bytes lexer.old.place)) }
    ensures fresh { OnOk result (lexer.new.failed ≡ None) }
    ensures within { OnOk result (lexer.new.place ≤ length lexer.new.bytes) }
    ensures lexer_bytes { lexer.new.bytes ≡ lexer.old.bytes }
    ensures table_bytes { table.new.bytes ≡ table.old.bytes }
{
    let id = match next_item(table, lexer)? {
        None => return Err(PartError::IllFormed),
        Some(id) => id,
    };
    match head_of(table, id) {
        Head::Sat => {
            let values = read_items(alloc, version, table, lexer)?;
            Ok(Line::Shown(FileEntry::Sat(NamedValues::new(values))))
        }
        Head::Unsat => {
            let items = read_items(alloc, version, table, lexer)?;
            Ok(Line::Shown(FileEntry::Unsat(Items::new(items))))
        }
        Head::Best => Ok(Line::Shown(read_best(alloc, version, table, lexer)?)),
        Head::Unbounded => Ok(Line::Shown(read_unbounded(alloc, version, table, lexer)?)),
        Head::End => {
            read_close(table, lexer)?;
            Ok(Line::End)
        }
        Head::Other => {
            skip_items(table, lexer)?;
            Err(PartError::IllFormed)
        }
    }
}

/// The entry that is next, or the end. There are `count` entries before it.
pub(crate) fn read_line(
    alloc: Global,
    version: Version,
    table: &mut Sexprs,
    lexer: &mut Lexer,
    count: usize,
) -> Result<Line, CertReadError>
    requires fresh { lexer.old.failed ≡ None }
    requires same { lexer.old.bytes ≡ table.old.bytes }
    requires few { count < 2 ^ 64 - 1 }
    ensures line { IfOk result (λ line. LineIs version lexer.old.bytes lexer.old.place line lexer.new.place) }
    ensures refused { IfErr result (ErrorSays (RefusesBehind version lexer.old.bytes count lexer.old.place)) }
    ensures fresh { OnOk result (lexer.new.failed ≡ None) }
    ensures forward { OnOk result (lexer.old.place < lexer.new.place) }
    ensures within { OnOk result (lexer.new.place ≤ length lexer.new.bytes) }
    ensures lexer_bytes { lexer.new.bytes ≡ lexer.old.bytes }
    ensures table_bytes { table.new.bytes ≡ table.old.bytes }
{
    let ill_formed = CertReadError::Refused(CertificateRefusal::IllFormed(count + 1));
    let opening = match lexer.next() {
        Ok(Some(token)) => token,
        Ok(None) => return Err(CertReadError::Refused(CertificateRefusal::NoEnd)),
        Err(_) => return Err(ill_formed),
    };
    match opening.kind {
        TokenKind::Left => {}
        _ => return Err(ill_formed),
    }
    match read_opened(alloc, version, table, lexer) {
        Ok(line) => Ok(line),
        Err(PartError::IllFormed) => Err(ill_formed),
        Err(PartError::OutOfMemory) => Err(CertReadError::OutOfMemory),
    }
}
