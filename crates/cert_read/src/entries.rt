//! The entries of a certificate, one after the other.
ghost use Rattle.std.specs.Prelude.{◌≡◌, ◌≢◌, ◌∷◌, ◌+◌, ◌-◌, ◌<◌, ◌≤◌, ◌^◌, [], List, ℕ, length, None, Ok, Err, IsTrue, IsFalse};
ghost use Rattle.std.specs.Prelude.{IfOk, OnOk, IfErr, OnErr, IfSome, IsNone, IsSome};
ghost use Rattle.std.specs.List.{AllByRecursion};
ghost use Rattle.smt_lex.specs.Grammar.{Reads};
ghost use Rattle.smt_sexpr.specs.Reading.{Spells};
ghost use Rattle.cert_text.specs.declared.entry.FileEntry.{FileEntry as Shown};
ghost use Rattle.cert_text.specs.Form.{header_sexpr};
ghost use Rattle.cert_read.specs.Certificates.{certificate, no_certificate, ErrorSays, HasMore, HoldsEntries, RefusesBehind, ReadsEntries, ReadsCertificate};
ghost use Rattle.cert_read.specs.code.Entries.{IsReadTo, AreAllLeft, IsRefusedFrom, KeepsNone};

use crate::error::{CertReadError, CertificateRefusal};
use crate::header::read_header;
use crate::line::{Line, read_line};
use bstr::ByteSlice;
use cert_text::{FileEntry, Version};
use smt_lex::Lexer;
use smt_sexpr::Sexprs;
use std::alloc::Global;
use std::marker::Model;

/// Reads a certificate entry by entry, and holds none of them.
///
/// It is seen as the certificate's version, the text, the place up to which it was read, and how many entries stand before
/// that. Each call takes time linear in what it reads, and memory for the entry, and for the greatest item's s-expression.
pub struct EntryReader<'a> {
    version: Version,
    lexer: Lexer<'a>,
    /// Room for the item that is read.
    table: Sexprs<'a>,
    count: usize,
}

impl Drop for EntryReader<'_> {
    fn drop(self) {
        let EntryReader {
            version,
            lexer,
            table,
            count: _,
        } = self;
        drop(version);
        drop(lexer);
        drop(table);
    }
}

impl<'a> Model for EntryReader<'a> {
    ghost use Rattle.cert_read.specs.code.Entries.{EntriesFrom, IsReady};

    ghost Value = { EntriesFrom };

    ghost view = { λ r. record { version = r.version; bytes = r.lexer.bytes; place = r.lexer.place; count = r.count } };

    ghost invariant = { λ r. IsReady r.lexer r.table r.count };
}

/// Refuses what stands behind the end.
fn read_rest(lexer: &mut Lexer) -> Result<(), CertReadError>
    requires fresh { lexer.old.failed ≡ None }
    ensures ok { OnOk result (Reads lexer.old.bytes lexer.old.place (Ok None) lexer.new.place) }
    ensures err { OnErr result (HasMore lexer.old.bytes lexer.old.place) }
    ensures text { IfErr result (λ e. e ≡ CertReadError.Refused CertificateRefusal.TextAfterEnd) }
    ensures bytes { lexer.new.bytes ≡ lexer.old.bytes }
{
    match lexer.next() {
        Ok(None) => Ok(()),
        _ => Err(CertReadError::Refused(CertificateRefusal::TextAfterEnd)),
    }
}

/// The entry that is next, or `None` where the end of the certificate is, and of the text. There are `count` entries before it.
fn read_entry(
    alloc: Global,
    version: Version,
    table: &mut Sexprs,
    lexer: &mut Lexer,
    count: usize,
) -> Result<Option<FileEntry>, CertReadError>
    requires fresh { lexer.old.failed ≡ None }
    requires same { lexer.old.bytes ≡ table.old.bytes }
    requires few { count < 2 ^ 64 - 1 }
    ensures entry { IfOk result (λ o. IfSome o
        (λ e. HoldsEntries version lexer.old.bytes lexer.old.place (e ∷ []) lexer.new.place)) }
    ensures end { IfOk result (λ o. IsNone o
        → ReadsEntries version lexer.old.bytes lexer.old.place (certificate version [])) }
    ensures refused { IfErr result (ErrorSays (RefusesBehind version lexer.old.bytes count lexer.old.place)) }
    ensures fresh { IfOk result (λ o. IsSome o → lexer.new.failed ≡ None) }
    ensures forward { IfOk result (λ o. IsSome o → lexer.old.place < lexer.new.place) }
    ensures within { IfOk result (λ o. IsSome o → lexer.new.place ≤ length lexer.new.bytes) }
    ensures lexer_bytes { lexer.new.bytes ≡ lexer.old.bytes }
    ensures table_bytes { table.new.bytes ≡ table.old.bytes }
{
    match read_line(alloc, version, table, lexer, count)? {
        Line::Shown(entry) => Ok(Some(entry)),
        Line::End => {
            read_rest(lexer)?;
            Ok(None)
        }
    }
}

impl<'a> EntryReader<'a> {
    /// Before the first entry of a certificate whose header, of this version, the lexer has read.
    pub fn new(alloc: Global, version: Version, lexer: Lexer<'a>) -> Self
        requires { lexer.failed ≡ None }
        ensures { result ≡ record { version = version; bytes = lexer.entry.bytes; place = lexer.entry.place; count = 0 } }
    {
        let table = Sexprs::new(alloc, lexer.bytes());
        EntryReader {
            version,
            lexer,
            table,
            count: 0,
        }
    }

    /// Reads the header that stands at the lexer's place. A lexer that gave an error before reads none.
    pub fn open(alloc: Global, lexer: Lexer<'a>) -> Result<Self, CertReadError>
        ensures header { lexer.entry.failed ≡ None → IfOk result
            (λ r. Spells lexer.entry.bytes lexer.entry.place (header_sexpr r.version) r.place) }
        ensures bytes { IfOk result (λ r. r.bytes ≡ lexer.entry.bytes) }
        ensures count { IfOk result (λ r. r.count ≡ 0) }
        ensures refused { lexer.entry.failed ≡ None → IfErr result
            (ErrorSays (λ why. ReadsCertificate lexer.entry.bytes lexer.entry.place (no_certificate why))) }
        ensures again { lexer.entry.failed ≢ None → result ≡ Err (CertReadError.Refused CertificateRefusal.NoHeader) }
    {
        let mut behind = lexer;
        let version = read_header(alloc, &mut behind)?;
        Ok(EntryReader::new(alloc, version, behind))
    }

    /// How many entries were read.
    pub fn count(&self) -> usize
        ensures count { result ≡ self.now.count }
        ensures few { result < 2 ^ 63 }
    {
        self.count
    }

    /// Whether no entry from here on keeps a lemma. It may be `false` where none does.
    ///
    /// It reads no entry: it looks for the word by which items are kept.
    pub fn keeps_none(&self) -> bool
        ensures { IsTrue result → (entries : List Shown) (here : ℕ)
            → HoldsEntries self.now.version self.now.bytes self.now.place entries here → AllByRecursion KeepsNone entries }
    {
        match self.version {
            Version::One => true,
            Version::Two => !self.lexer.bytes().contains_str(b"keep"),
        }
    }

    /// The entry that is next, or `None` at the end, where it stays. Where the text is refused, or memory is wanting, it stays
    /// too.
    pub fn next(&mut self, alloc: Global) -> Result<Option<FileEntry>, CertReadError>
        ensures entry { IfOk result (λ o. IfSome o (λ e. IsReadTo self.old self.new (e ∷ []))) }
        ensures end { IfOk result (λ o. IsNone o → AreAllLeft self.old []) }
        ensures refused { IfErr result
            (ErrorSays (RefusesBehind self.old.version self.old.bytes self.old.count self.old.place)) }
        ensures stays { IfOk result (λ o. IsNone o → self.new ≡ self.old) }
        ensures err { OnErr result (self.new ≡ self.old) }
        ensures forward { IfOk result (λ o. IsSome o → self.old.place < self.new.place) }
        ensures within { IfOk result (λ o. IsSome o → self.new.place ≤ length self.new.bytes) }
    {
        let before = self.lexer.copy();
        let read = read_entry(
            alloc,
            self.version,
            &mut self.table,
            &mut self.lexer,
            self.count,
        );
        match read {
            Ok(Some(entry)) => {
                self.count += 1;
                Ok(Some(entry))
            }
            Ok(None) => {
                self.lexer = before;
                Ok(None)
            }
            Err(error) => {
                self.lexer = before;
                Err(error)
            }
        }
    }

    /// Goes past the entry that is next, where there is one. Else, and where the text is refused, or memory is wanting, it stays.
    pub fn skip(&mut self, alloc: Global) -> Result<bool, CertReadError>
        ensures entry { IfOk result (λ some. IsTrue some → (e : Shown) × IsReadTo self.old self.new (e ∷ [])) }
        ensures end { IfOk result (λ some. IsFalse some → AreAllLeft self.old []) }
        ensures refused { IfErr result
            (ErrorSays (RefusesBehind self.old.version self.old.bytes self.old.count self.old.place)) }
        ensures stays { IfOk result (λ some. IsFalse some → self.new ≡ self.old) }
        ensures err { OnErr result (self.new ≡ self.old) }
        ensures forward { IfOk result (λ some. IsTrue some → self.old.place < self.new.place) }
        ensures within { IfOk result (λ some. IsTrue some → self.new.place ≤ length self.new.bytes) }
    {
        let next = self.next(alloc)?;
        Ok(next.is_some())
    }

    /// Goes past all entries that are left, to the end of the text.
    pub fn skip_rest(&mut self, alloc: Global) -> Result<(), CertReadError>
        ensures ok { OnOk result ((entries : List Shown) × AreAllLeft self.old entries) }
        ensures refused { IfErr result (ErrorSays (IsRefusedFrom self.old)) }
    {
        while self.skip(alloc)? {}
        Ok(())
    }
}
