//! The lines of a certificate.
#![tactic(auto, unfolding(smt_lex::specs::Bytes::is_symbol_byte))]

ghost use Rattle.std.specs.Prelude.{◌≡◌, ◌++◌, Some, None, MatchOption, OnOk, OnErr};
ghost use Rattle.cert_text.specs.Form.{header_sexpr, end_sexpr, lemmas_in, line_of};

use best_values::Points;
use bstr::ByteVec;
use kept_lemmas::Items;
use refute_tree::Refutation;
use std::alloc::AllocError;
use stn_core::{NamedValues, Schedule, Value};

/// The versions of the format.
#[derive(Clone, Copy, Debug, PartialEq, Eq)]
pub enum Version {
    /// Each entry stands alone.
    One,
    /// An entry may keep lemmas of earlier ones, and a step may be a clash.
    Two,
}

/// What decides one question of a script.
#[derive(Drop)]
pub enum Entry {
    /// A check answered sat: one value for each active declared name, in the order of declaration.
    Sat(NamedValues),
    /// A question answered unsat: why there is no solution.
    Unsat(Refutation),
    /// A term's least value: that value, values of the names that give it to the term, and why there is no lesser one.
    Best(Value, NamedValues, Refutation),
    /// A term without a least value: one value for each time point, and the points that can be lowered together.
    Unbounded(Schedule, Points),
}

impl Entry {
    /// Its lemmas, where it has any.
    pub fn refutation(&self) -> Option<&Refutation>
        ensures { MatchOption result (lemmas_in self.now ≡ None) (λ refutation. lemmas_in self.now ≡ Some refutation.now) }
    {
        match self {
            Entry::Unsat(refutation) => Some(refutation),
            Entry::Best(_, _, refutation) => Some(refutation),
            Entry::Sat(_) | Entry::Unbounded(_, _) => None,
        }
    }
}

/// What a certificate holds for one question of a script.
#[derive(Drop)]
pub enum FileEntry {
    /// A check answered sat: one value for each active declared name, in the order of declaration.
    Sat(NamedValues),
    /// A question answered unsat: why there is no solution, over the entries before it.
    Unsat(Items),
    /// A term's least value: that value, values of the names that give it to the term, and why there is no lesser one, over
    /// the entries before it.
    Best(Value, NamedValues, Items),
    /// A term without a least value: one value for each time point, and the points that can be lowered together.
    Unbounded(Schedule, Points),
}

/// Appends the first line of a certificate of this version, or nothing where memory ends.
#[tactic(auto, unfolding(smt_lex::specs::Bytes::is_symbol_byte, crate::specs::Form::numeral_text))]
pub fn write_header(version: Version, out: &mut Vec<u8>) -> Result<(), AllocError>
    ensures ok { OnOk result (out.new.items ≡ out.old.items ++ line_of (header_sexpr version)) }
    ensures err { OnErr result (out.new.items ≡ out.old.items) }
{
    match version {
        Version::One => out.push_str(b"(dtp-certificate 1)\n"),
        Version::Two => out.push_str(b"(dtp-certificate 2)\n"),
    }
}

/// Appends the last line of a certificate, or nothing where memory ends.
pub fn write_end(out: &mut Vec<u8>) -> Result<(), AllocError>
    ensures ok { OnOk result (out.new.items ≡ out.old.items ++ line_of end_sexpr) }
    ensures err { OnErr result (out.new.items ≡ out.old.items) }
{
    out.push_str(b"(end)\n")
}
