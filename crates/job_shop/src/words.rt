//! The words of a text, and the numbers that they are.
ghost use Rattle.std.specs.Prelude.{◌≡◌, ◌<◌, ◌≤◌, ◌+◌, ◌∷◌, length, drop, slice_index, slice_range, false, Ok, Err, IfOk, IfErr};
ghost use Rattle.std.specs.Char.{is_ascii_digit};
ghost use Rattle.std.specs.List.{list_all};
ghost use Rattle.smt_lex.specs.Bytes.{is_space};
ghost use Rattle.job_shop.specs.Words.{words, number_in};
ghost use Rattle.job_shop.specs.Instances.{next_number, is_over};
ghost use Rattle.job_shop.specs.code.Reading.{rest_of};

use crate::fault::{JobFault, JobRefusal};
use smt_lex::numeral_value;

/// Tab, line feed, carriage return, space.
#[tactic(auto, using(crate::proofs::Spaces::space_is))]
fn is_space(byte: u8) -> bool
    ensures { result ≡ is_space byte }
{
    byte == b'\t' || byte == b'\n' || byte == b'\r' || byte == b' '
}

/// Where the next word begins, or the text ends.
#[tactic(auto, using(crate::proofs::WordSteps::space_step))]
fn skip_spaces(bytes: &[u8], from: usize) -> usize
    requires { from ≤ length bytes.now }
    ensures from { from ≤ result }
    ensures within { result ≤ length bytes.now }
    ensures word { result < length bytes.now → is_space (slice_index bytes.now result) ≡ false }
    ensures words { words (drop from bytes.now) ≡ words (drop result bytes.now) }
{
    let mut place = from;
    'bytes: while place < bytes.len() && is_space(bytes[place]) {
        place += 1;
    }
    place
}

/// Where the word that begins here ends.
#[tactic(auto, using(crate::proofs::WordSteps::word_first, crate::proofs::WordSteps::word_longer, crate::proofs::WordSteps::word_ends, crate::proofs::WordSteps::last_word))]
fn word_end(bytes: &[u8], start: usize) -> usize
    requires within { start < length bytes.now }
    requires word { is_space (slice_index bytes.now start) ≡ false }
    ensures some { start < result }
    ensures within { result ≤ length bytes.now }
    ensures words { words (drop start bytes.now) ≡ slice_range bytes.now start result ∷ words (drop result bytes.now) }
{
    let mut end = start + 1;
    'bytes: while end < bytes.len() && !is_space(bytes[end]) {
        end += 1;
    }
    end
}

/// Whether all bytes are digits.
fn are_digits(word: &[u8]) -> bool
    ensures { result ≡ list_all is_ascii_digit word.now }
{
    word.iter().all(|byte| byte.is_ascii_digit())
}

/// The number that the word is, where it is one in this range.
#[tactic(auto, using(crate::proofs::Spaces::no_digits, crate::proofs::Spaces::too_large, crate::proofs::Spaces::too_low, crate::proofs::Spaces::too_high, crate::proofs::Spaces::in_range))]
fn number_in(word: &[u8], low: u32, high: u32) -> Result<u32, JobFault>
    ensures ok { IfOk result (λ n. number_in low high word.now ≡ Ok n) }
    ensures range { IfOk result (λ n. (low ≤ n) × (n ≤ high)) }
    ensures err { IfErr result (λ fault. number_in low high word.now ≡ Err fault) }
{
    if !are_digits(word) {
        return Err(JobFault::NotANumber);
    }
    match numeral_value(word) {
        None => Err(JobFault::OutOfRange),
        Some(n) => {
            if n < u64::from(low) {
                return Err(JobFault::OutOfRange);
            }
            if n > u64::from(high) {
                return Err(JobFault::OutOfRange);
            }
            Ok(n as u32)
        }
    }
}

/// Words that are left of a text.
#[derive(Drop)]
pub struct Words<'a> {
    pub bytes: &'a [u8],
    /// where what is left begins
    pub place: usize,
    /// the number of the next word, from 1
    pub number: usize,
    pub ghost within: { place ≤ length bytes.now },
    pub ghost few: { number ≤ place + 1 },
}

impl<'a> Words<'a> {
    pub fn new(bytes: &'a [u8]) -> Self
        ensures bytes { result.bytes.now ≡ bytes.now }
        ensures place { result.place ≡ 0 }
        ensures number { result.number ≡ 1 }
    {
        Words {
            bytes,
            place: 0,
            number: 1,
        }
    }

    /// The next word's number.
    #[tactic(auto, using(crate::proofs::NumberSteps::number_missing, crate::proofs::NumberSteps::number_found, crate::proofs::NumberSteps::number_faulty))]
    pub fn next_number(&mut self, low: u32, high: u32) -> Result<u32, JobRefusal>
        ensures bytes { self.new.bytes.now ≡ self.old.bytes.now }
        ensures ok { IfOk result (λ n. next_number low high (rest_of self.old.bytes.now self.old.place self.old.number)
            ≡ Ok (n, rest_of self.old.bytes.now self.new.place self.new.number)) }
        ensures range { IfOk result (λ n. (low ≤ n) × (n ≤ high)) }
        ensures err { IfErr result (λ why. next_number low high
            (rest_of self.old.bytes.now self.old.place self.old.number) ≡ Err why) }
    {
        let start = skip_spaces(self.bytes, self.place);
        if start == self.bytes.len() {
            return Err(JobRefusal {
                number: self.number,
                fault: JobFault::TooFewNumbers,
            });
        }
        let end = word_end(self.bytes, start);
        match number_in(&self.bytes[start..end], low, high) {
            Ok(n) => {
                self.place = end;
                self.number += 1;
                Ok(n)
            }
            Err(fault) => Err(JobRefusal {
                number: self.number,
                fault,
            }),
        }
    }

    /// Whether no word is left.
    #[tactic(auto, using(crate::proofs::Spaces::over_is))]
    pub fn is_over(&self) -> bool
        ensures { result ≡ is_over (rest_of self.now.bytes.now self.now.place self.now.number) }
    {
        skip_spaces(self.bytes, self.place) == self.bytes.len()
    }
}
