//! An item in the form in which certificates are written, read straight from the bytes. What isn't in this form is
//! left to the readers of s-expressions.
#![tactic(auto, unfolding(smt_lex::specs::Bytes::is_symbol_byte))]

ghost use Rattle.std.specs.Prelude.{◌≡◌, ◌++◌, ◌∷◌, [], ◌<◌, ◌≤◌, ◌^◌, true, length, take, codes};
ghost use Rattle.std.specs.Prelude.{IfSome, IfOk, IsTrue, option_map};
ghost use Rattle.std.specs.Char.{is_ascii_digit};
ghost use Rattle.std.specs.List.{list_all};
ghost use Rattle.smt_lex.specs.Grammar.{is_numeral};
ghost use Rattle.smt_lex.specs.Numbers.{value_of};
ghost use Rattle.smt_sexpr.specs.Tree.{Sexpr};
ghost use Rattle.smt_sexpr.specs.Printing.{text_of};
ghost use Rattle.kept_lemmas.specs.declared.item.Item.TheVariants.{Own, Keep};
ghost use Rattle.cert_text.specs.Form.{numeral_text, number_of_value, literal_sexpr, step_sexpr};
ghost use Rattle.cert_text.specs.Limits.{NumberFits};
ghost use Rattle.cert_read.specs.code.Quick.{LiteralFits, StepFits, ReadsBound, ReadsLiteral, ReadsFirst, ReadsNext};
ghost use Rattle.cert_read.specs.code.Quick.{ReadsClause, ReadsItem, AddsAll, AddsStep, AddsNext, IsQuick};

use crate::part::Part;
use cert_text::Version;
use kept_lemmas::{Item, Kept};
use refute_tree::{Lemma, Steps};
use std::alloc::{AllocError, Global};
use stn_core::{Clause, Literal, NamedValue};

/// What is behind the text that the bytes begin with.
fn behind<'a>(bytes: &'a [u8], text: &[u8]) -> Option<&'a [u8]>
    ensures { IfSome result (λ rest. bytes.entry.now ≡ text.now ++ rest.now) }
{
    let rest = bytes.strip_prefix(text)?;
    Some(rest)
}

/// What is behind the byte that the bytes begin with.
fn behind_byte(bytes: &[u8], byte: u8) -> Option<&[u8]>
    ensures { IfSome result (λ rest. bytes.entry.now ≡ byte ∷ rest.now) }
{
    match bytes.split_first() {
        Some((first, rest)) if *first == byte => Some(rest),
        _ => None,
    }
}

/// The number that the first digits stand for, and their count. It stops where one more might be too many.
fn digits(bytes: &[u8]) -> (u64, usize)
    ensures within { result.1 ≤ length bytes.now }
    ensures digits { IsTrue (list_all is_ascii_digit (take result.1 bytes.now)) }
    ensures value { result.0 ≡ value_of (take result.1 bytes.now) }
    ensures small { result.0 < 10 ^ 18 }
{
    let mut value = 0u64;
    let mut count = 0usize;
    while count < bytes.len() && value < 100_000_000_000_000_000 && bytes[count].is_ascii_digit() {
        value = 10 * value + u64::from(bytes[count] - b'0');
        count += 1;
    }
    (value, count)
}

/// Whether digits are a numeral, which has no leading zero.
fn is_numeral(digits: &[u8]) -> bool
    requires { IsTrue (list_all is_ascii_digit digits.now) }
    ensures { IsTrue result → IsTrue (is_numeral digits.now) }
{
    match digits {
        [] => false,
        [_] => true,
        [first, ..] => *first != b'0',
    }
}

/// A numeral, and what is behind it.
fn numeral(bytes: &[u8]) -> Option<(u64, &[u8])>
    ensures text { IfSome result (λ r. bytes.entry.now ≡ numeral_text r.0 ++ r.1.now) }
    ensures small { IfSome result (λ r. r.0 < 10 ^ 18) }
{
    let (value, count) = digits(bytes);
    if !is_numeral(&bytes[..count]) {
        return None;
    }
    Some((value, &bytes[count..]))
}

#[inline(always)]
fn is_digit(byte: u8) -> bool
    ensures { result ≡ true → (48 ≤ byte) × (byte ≤ 57) }
{
    byte.is_ascii_digit()
}

/// Whether it is the first digit of a numeral of several.
#[inline(always)]
fn is_leading(byte: u8) -> bool
    ensures { result ≡ true → (49 ≤ byte) × (byte ≤ 57) }
{
    byte != b'0' && byte.is_ascii_digit()
}

/// A numeral of up to three digits with this byte behind it, and what is behind that.
#[inline(always)]
fn short_numeral(bytes: &[u8], end: u8) -> Option<(u64, &[u8])>
    ensures text { IfSome result (λ r. bytes.entry.now ≡ numeral_text r.0 ++ end ∷ r.1.now) }
    ensures small { IfSome result (λ r. r.0 < 1000) }
{
    match bytes {
        [a, e, rest @ ..] if *e == end && is_digit(*a) => Some((u64::from(*a - b'0'), rest)),
        [a, b, e, rest @ ..] if *e == end && is_leading(*a) && is_digit(*b) => {
            Some((10 * u64::from(*a - b'0') + u64::from(*b - b'0'), rest))
        }
        [a, b, c, e, rest @ ..] if *e == end && is_leading(*a) && is_digit(*b) && is_digit(*c) => {
            Some((
                100 * u64::from(*a - b'0') + 10 * u64::from(*b - b'0') + u64::from(*c - b'0'),
                rest,
            ))
        }
        _ => None,
    }
}

/// A numeral in a list's last place, and what is behind the list.
fn last_numeral(bytes: &[u8]) -> Option<(usize, &[u8])>
    ensures text { IfSome result (λ r. bytes.entry.now ≡ numeral_text r.0 ++ 41 ∷ r.1.now) }
    ensures small { IfSome result (λ r. r.0 < 10 ^ 18) }
{
    if let Some((value, rest)) = short_numeral(bytes, b')') {
        return Some((value as usize, rest));
    }
    let (value, rest) = numeral(bytes)?;
    let rest = behind_byte(rest, b')')?;
    Some((value as usize, rest))
}

/// A point, and what is behind the space behind it.
fn point(bytes: &[u8]) -> Option<(u32, &[u8])>
    ensures { IfSome result (λ r. bytes.entry.now ≡ numeral_text r.0 ++ 32 ∷ r.1.now) }
{
    if let Some((value, rest)) = short_numeral(bytes, b' ') {
        return Some((value as u32, rest));
    }
    let (value, rest) = numeral(bytes)?;
    if value >= 1 << 32 {
        return None;
    }
    let rest = behind_byte(rest, b' ')?;
    Some((value as u32, rest))
}

/// A number below 0, behind what it begins with, in a list's last place, and what is behind the list.
fn last_negative(bytes: &[u8]) -> Option<(i64, &[u8])>
    ensures text { IfSome result (λ r. codes "(- " ++ bytes.entry.now
        ≡ text_of (number_of_value r.0) ++ 41 ∷ r.1.now) }
    ensures fits { IfSome result (λ r. NumberFits r.0) }
{
    let (value, rest) = last_numeral(bytes)?;
    if value == 0 {
        return None;
    }
    let rest = behind_byte(rest, b')')?;
    Some((-(value as i64), rest))
}

/// A number in a list's last place, and what is behind the list.
fn last_number(bytes: &[u8]) -> Option<(i64, &[u8])>
    ensures text { IfSome result (λ r. bytes.entry.now ≡ text_of (number_of_value r.0) ++ 41 ∷ r.1.now) }
    ensures fits { IfSome result (λ r. NumberFits r.0) }
{
    if let Some(rest) = behind(bytes, b"(- ") {
        let (c, rest) = last_negative(rest)?;
        return Some((c, rest));
    }
    let (value, rest) = last_numeral(bytes)?;
    Some((value as i64, rest))
}

/// The points and the bound of a literal, and what is behind the closing parenthesis.
fn bound(bytes: &[u8]) -> Option<(Literal, &[u8])>
    ensures { IfSome result (λ r. ReadsBound bytes.entry.now r.0 r.1.now) }
{
    let (x, rest) = point(bytes)?;
    let (y, rest) = point(rest)?;
    let (c, rest) = last_number(rest)?;
    Some((Literal { x, y, c }, rest))
}

/// A literal, and what is behind it.
fn literal(bytes: &[u8]) -> Option<(Literal, &[u8])>
    ensures { IfSome result (λ r. ReadsLiteral bytes.entry.now r.0 r.1.now) }
{
    let rest = behind_byte(bytes, b'(')?;
    bound(rest)
}

/// The first literal of a list, behind the list's parenthesis, and what is behind it.
fn first_literal(bytes: &[u8]) -> Option<(Literal, &[u8])>
    ensures { IfSome result (λ r. ReadsFirst bytes.entry.now r.0 r.1.now) }
{
    let rest = behind_byte(bytes, b'(')?;
    literal(rest)
}

/// A literal behind a space, and what is behind it.
fn next_literal(bytes: &[u8]) -> Option<(Literal, &[u8])>
    ensures { IfSome result (λ r. ReadsNext bytes.entry.now r.0 r.1.now) }
{
    let rest = behind_byte(bytes, b' ')?;
    literal(rest)
}

/// Adds the literals that stand behind something in a list, and gives what is behind the list. Without memory, and
/// where the list has another form, some of them may be added.
fn literals_behind<'a>(
    bytes: &'a [u8],
    literals: &mut Vec<Literal>,
) -> Result<Option<&'a [u8]>, AllocError>
    ensures { IfOk result (λ o. IfSome o (λ rest. AddsAll literal_sexpr LiteralFits
        literals.old.items literals.new.items bytes.entry.now rest.now)) }
{
    let mut rest = bytes;
    while let Some((literal, behind)) = next_literal(rest) {
        literals.push(literal)?;
        rest = behind;
    }
    match behind_byte(rest, b')') {
        Some(behind) => Ok(Some(behind)),
        None => Ok(None),
    }
}

/// The clause of a lemma, and what is behind it.
fn clause<'a>(alloc: Global, bytes: &'a [u8]) -> Result<Option<(Clause, &'a [u8])>, AllocError>
    ensures { IfOk result (λ o. IfSome o (λ r. ReadsClause bytes.entry.now r.0 r.1.now)) }
{
    let mut literals = Vec::new(alloc);
    if let Some(rest) = behind(bytes, b"()") {
        return Ok(Some((Clause::new(literals), rest)));
    }
    let Some((first, rest)) = first_literal(bytes) else {
        return Ok(None);
    };
    literals.push(first)?;
    match literals_behind(rest, &mut literals)? {
        Some(rest) => Ok(Some((Clause::new(literals), rest))),
        None => Ok(None),
    }
}

/// A leaf, behind its name: adds it, and gives what is behind it.
fn cycle<'a>(
    bytes: &'a [u8],
    literals: &mut Vec<Literal>,
    steps: &mut Steps,
) -> Result<Option<&'a [u8]>, AllocError>
    ensures { (version : Version) → IfOk result (λ o. AddsStep version steps.old steps.new
        (codes "(cycle" ++ bytes.entry.now) (option_map (λ rest. rest.now) o)) }
{
    literals.clear();
    let Some(rest) = literals_behind(bytes, literals)? else {
        return Ok(None);
    };
    steps.push_cycle(literals.as_slice())?;
    Ok(Some(rest))
}

/// The cases of a clause of the problem, behind the name.
fn input<'a>(bytes: &'a [u8], steps: &mut Steps) -> Result<Option<&'a [u8]>, AllocError>
    ensures { (version : Version) → IfOk result (λ o. AddsStep version steps.old steps.new
        (codes "(input " ++ bytes.entry.now) (option_map (λ rest. rest.now) o)) }
{
    let Some((i, rest)) = last_numeral(bytes) else {
        return Ok(None);
    };
    steps.push_input(i)?;
    Ok(Some(rest))
}

/// The cases of an earlier lemma's clause, behind the name.
fn earlier<'a>(bytes: &'a [u8], steps: &mut Steps) -> Result<Option<&'a [u8]>, AllocError>
    ensures { (version : Version) → IfOk result (λ o. AddsStep version steps.old steps.new
        (codes "(lemma " ++ bytes.entry.now) (option_map (λ rest. rest.now) o)) }
{
    let Some((j, rest)) = last_numeral(bytes) else {
        return Ok(None);
    };
    steps.push_lemma(j)?;
    Ok(Some(rest))
}

/// A clash, which version 2 alone has, behind the name.
fn clash<'a>(
    version: Version,
    bytes: &'a [u8],
    steps: &mut Steps,
) -> Result<Option<&'a [u8]>, AllocError>
    ensures { IfOk result (λ o. AddsStep version steps.old steps.new
        (codes "(clash " ++ bytes.entry.now) (option_map (λ rest. rest.now) o)) }
{
    match version {
        Version::One => return Ok(None),
        Version::Two => {}
    }
    let Some((i, rest)) = last_numeral(bytes) else {
        return Ok(None);
    };
    steps.push_clash(i)?;
    Ok(Some(rest))
}

/// The cases of a literal and its negation, behind the name.
fn either<'a>(bytes: &'a [u8], steps: &mut Steps) -> Result<Option<&'a [u8]>, AllocError>
    ensures { (version : Version) → IfOk result (λ o. AddsStep version steps.old steps.new
        (codes "(either " ++ bytes.entry.now) (option_map (λ rest. rest.now) o)) }
{
    let Some((literal, rest)) = bound(bytes) else {
        return Ok(None);
    };
    steps.push_either(literal)?;
    Ok(Some(rest))
}

/// A step: adds it, and gives what is behind it.
fn step<'a>(
    version: Version,
    bytes: &'a [u8],
    literals: &mut Vec<Literal>,
    steps: &mut Steps,
) -> Result<Option<&'a [u8]>, AllocError>
    ensures { IfOk result (λ o. AddsStep version steps.old steps.new bytes.entry.now
        (option_map (λ rest. rest.now) o)) }
{
    if let Some(rest) = behind(bytes, b"(cycle") {
        let after = cycle(rest, literals, steps)?;
        return Ok(after);
    }
    if let Some(rest) = behind(bytes, b"(input ") {
        let after = input(rest, steps)?;
        return Ok(after);
    }
    if let Some(rest) = behind(bytes, b"(lemma ") {
        let after = earlier(rest, steps)?;
        return Ok(after);
    }
    if let Some(rest) = behind(bytes, b"(clash ") {
        let after = clash(version, rest, steps)?;
        return Ok(after);
    }
    if let Some(rest) = behind(bytes, b"(either ") {
        let after = either(rest, steps)?;
        return Ok(after);
    }
    Ok(None)
}

/// A step behind a space: adds it, and gives what is behind it.
fn next_step<'a>(
    version: Version,
    bytes: &'a [u8],
    literals: &mut Vec<Literal>,
    steps: &mut Steps,
) -> Result<Option<&'a [u8]>, AllocError>
    ensures { IfOk result (λ o. AddsNext version steps.old steps.new bytes.entry.now
        (option_map (λ rest. rest.now) o)) }
{
    let Some(rest) = behind_byte(bytes, b' ') else {
        return Ok(None);
    };
    let after = step(version, rest, literals, steps)?;
    Ok(after)
}

/// The steps that stand behind a clause, and what is behind the lemma.
fn steps_behind<'a>(
    alloc: Global,
    version: Version,
    bytes: &'a [u8],
) -> Result<Option<(Steps, &'a [u8])>, AllocError>
    ensures { IfOk result (λ o. IfSome o (λ r.
        AddsAll step_sexpr (StepFits version) [] r.0 bytes.entry.now r.1.now)) }
{
    let mut literals = Vec::new(alloc);
    let mut steps = Steps::new(alloc);
    let mut rest = bytes;
    while let Some(behind) = next_step(version, rest, &mut literals, &mut steps)? {
        rest = behind;
    }
    match behind_byte(rest, b')') {
        Some(behind) => Ok(Some((steps, behind))),
        None => Ok(None),
    }
}

/// A lemma, behind its name and a space, and what is behind it.
fn lemma<'a>(
    alloc: Global,
    version: Version,
    bytes: &'a [u8],
) -> Result<Option<(Lemma, &'a [u8])>, AllocError>
    ensures { IfOk result (λ o. IfSome o (λ r.
        ReadsItem version (codes "(lemma " ++ bytes.entry.now) (Own r.0) r.1.now)) }
{
    let Some((clause, rest)) = clause(alloc, bytes)? else {
        return Ok(None);
    };
    let Some((steps, rest)) = steps_behind(alloc, version, rest)? else {
        return Ok(None);
    };
    Ok(Some((Lemma { clause, steps }, rest)))
}

/// The place of a kept lemma, which version 2 alone has, behind the name, and what is behind it.
fn kept(version: Version, bytes: &[u8]) -> Option<(Kept, &[u8])>
    ensures { IfSome result (λ r. ReadsItem version (codes "(keep " ++ bytes.entry.now) (Keep r.0) r.1.now) }
{
    match version {
        Version::One => return None,
        Version::Two => {}
    }
    let (entry, rest) = numeral(bytes)?;
    let rest = behind_byte(rest, b' ')?;
    let (item, rest) = last_numeral(rest)?;
    let entry = entry as usize;
    Some((Kept { entry, item }, rest))
}

/// An item, and what is behind it.
fn item<'a>(
    alloc: Global,
    version: Version,
    bytes: &'a [u8],
) -> Result<Option<(Item, &'a [u8])>, AllocError>
    ensures { IfOk result (λ o. IfSome o (λ r. ReadsItem version bytes.entry.now r.0 r.1.now)) }
{
    if let Some(rest) = behind(bytes, b"(lemma ") {
        let Some((lemma, rest)) = lemma(alloc, version, rest)? else {
            return Ok(None);
        };
        return Ok(Some((Item::Own(lemma), rest)));
    }
    let Some(rest) = behind(bytes, b"(keep ") else {
        return Ok(None);
    };
    let Some((kept, rest)) = kept(version, rest) else {
        return Ok(None);
    };
    Ok(Some((Item::Keep(kept), rest)))
}

/// What may be read straight from the bytes.
pub(crate) trait Quick: Part {
    /// What stands behind a space, and what is behind it, where that has the form in which it is written.
    fn quick<'a>(
        alloc: Global,
        version: Version,
        bytes: &'a [u8],
    ) -> Result<Option<(Self, &'a [u8])>, AllocError>
        ensures { IfOk result (λ o. IfSome o (λ r. IsQuick (Self.meant version) bytes.entry.now r.0 r.1.now)) };
}

impl Quick for Item {
    fn quick<'a>(
        alloc: Global,
        version: Version,
        bytes: &'a [u8],
    ) -> Result<Option<(Item, &'a [u8])>, AllocError> {
        let Some(rest) = behind_byte(bytes, b' ') else {
            return Ok(None);
        };
        let read = item(alloc, version, rest)?;
        Ok(read)
    }
}

impl Quick for NamedValue {
    fn quick<'a>(
        _alloc: Global,
        _version: Version,
        _bytes: &'a [u8],
    ) -> Result<Option<(NamedValue, &'a [u8])>, AllocError> {
        Ok(None)
    }
}
