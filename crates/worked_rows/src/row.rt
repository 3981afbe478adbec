//! A row of the table, and how it is read.
ghost use Rattle.std.specs.Prelude.{◌≡◌, ◌↔◌, IsTrue};

use std::alloc::{AllocError, AllocFailed, Global};
use std::num::NonZeroUsize;

/// Why a line wasn't taken.
#[derive(Clone, Copy, Debug, PartialEq, Eq)]
pub enum LineError {
    /// The line isn't of the table's form.
    Refused,
    OutOfMemory,
}

impl From<AllocError> for LineError {
    fn from(_error: AllocError) -> LineError {
        LineError::OutOfMemory
    }
}

impl<T: Drop> From<AllocFailed<T>> for LineError {
    fn from(_failed: AllocFailed<T>) -> LineError {
        LineError::OutOfMemory
    }
}

/// A run of `dtp`, and what it must write and answer.
#[derive(Drop)]
pub struct Row {
    pub name: Vec<u8>,
    pub words: Vec<String>,
    pub source: Vec<u8>,
    /// What `certify` writes of the source is put behind it first.
    pub certified: Option<Vec<String>>,
    /// What runs by these words write of the source takes its place first.
    pub emitted: Vec<Vec<String>>,
    pub failing_reads: Vec<u64>,
    pub failing_writes: Vec<u64>,
    /// How many bytes a read gives and a write takes at most.
    pub pieces: NonZeroUsize,
    /// Each read and each write is to fail in turn.
    pub fails_anywhere: bool,
    /// Each front of the source is to be tried.
    pub cut_anywhere: bool,
    /// Two workers are to search at the same time.
    pub workers_meet: bool,
    /// It is to go on so many bytes of stack too.
    pub stack: Option<usize>,
    pub output: Vec<u8>,
    pub status: u64,
}

impl Row {
    /// A row without words, of no source, which writes nothing and ends with status 0.
    pub fn new(alloc: Global, name: &str) -> Result<Row, AllocError> {
        Ok(Row {
            name: Vec::from_slice(alloc, name.as_bytes())?,
            words: Vec::new(alloc),
            source: Vec::new(alloc),
            certified: None,
            emitted: Vec::new(alloc),
            failing_reads: Vec::new(alloc),
            failing_writes: Vec::new(alloc),
            pieces: NonZeroUsize::MAX,
            fails_anywhere: false,
            cut_anywhere: false,
            workers_meet: false,
            stack: None,
            output: Vec::new(alloc),
            status: 0,
        })
    }

    /// Takes a line of the row. What its key says is done with the text behind it.
    pub fn take(&mut self, alloc: Global, key: &str, text: &str) -> Result<(), LineError> {
        match key {
            "words" => take_words(&mut self.words, alloc, text),
            "certified" => {
                let mut words = Vec::new(alloc);
                words.push("certify".to_string(alloc)?)?;
                take_words(&mut words, alloc, text)?;
                self.certified = Some(words);
                Ok(())
            }
            "emitted" => {
                for kind in ["script", "certificate"] {
                    let mut words = Vec::new(alloc);
                    words.push("jobshop".to_string(alloc)?)?;
                    words.push("--emit".to_string(alloc)?)?;
                    words.push(kind.to_string(alloc)?)?;
                    take_words(&mut words, alloc, text)?;
                    self.emitted.push(words)?;
                }
                Ok(())
            }
            "failing-reads" => take_numbers(&mut self.failing_reads, text),
            "failing-writes" => take_numbers(&mut self.failing_writes, text),
            "pieces" => {
                let count = usize::try_from(number(text)?).map_err(|_| LineError::Refused)?;
                self.pieces = NonZeroUsize::new(count).ok_or(LineError::Refused)?;
                Ok(())
            }
            "stack" => {
                self.stack = Some(usize::try_from(number(text)?).map_err(|_| LineError::Refused)?);
                Ok(())
            }
            "status" => {
                self.status = number(text)?;
                Ok(())
            }
            _ if self.take_word(key) => Ok(()),
            _ => self.take_text(alloc, key, text),
        }
    }

    /// Takes a key that says all by itself, if it is one.
    fn take_word(&mut self, key: &str) -> bool {
        match key {
            "fails-anywhere" => self.fails_anywhere = true,
            "cut-anywhere" => self.cut_anywhere = true,
            "workers-meet" => self.workers_meet = true,
            _ => return false,
        }
        true
    }

    /// Whether a run that wrote these bytes and ended with this status went as it is written.
    pub fn is_met(&self, status: u8, written: &[u8]) -> bool
        ensures { IsTrue result ↔ ((status ≡ self.now.status) × (written.now ≡ self.now.output.items)) }
    {
        u64::from(status) == self.status && written == self.output.as_slice()
    }

    /// Takes a line of the source, `>`, or of the output, `<`.
    fn take_text(&mut self, alloc: Global, key: &str, text: &str) -> Result<(), LineError> {
        if let Some(kind) = key.strip_prefix(">") {
            return put(&mut self.source, alloc, kind, text);
        }
        if let Some(kind) = key.strip_prefix("<") {
            return put(&mut self.output, alloc, kind, text);
        }
        Err(LineError::Refused)
    }
}

/// The number that the text is.
fn number(text: &str) -> Result<u64, LineError> {
    text.parse::<u64>().map_err(|_| LineError::Refused)
}

fn take_words(words: &mut Vec<String>, alloc: Global, text: &str) -> Result<(), LineError> {
    for word in text.split_whitespace() {
        words.push(word.to_string(alloc)?)?;
    }
    Ok(())
}

fn take_numbers(numbers: &mut Vec<u64>, text: &str) -> Result<(), LineError> {
    for word in text.split_whitespace() {
        numbers.push(number(word)?)?;
    }
    Ok(())
}

/// Puts the text behind the bytes: by no sign with a line's end, by `-` without one, by `*` so many times as the number
/// before it says, by `x` as bytes, each a hexadecimal numeral.
fn put(bytes: &mut Vec<u8>, alloc: Global, kind: &str, text: &str) -> Result<(), LineError> {
    match kind {
        "" => {
            bytes.extend_from_slice(text.as_bytes())?;
            bytes.push(b'\n')?;
            Ok(())
        }
        "-" => Ok(bytes.extend_from_slice(text.as_bytes())?),
        "*" => {
            let (count, piece) = text.split_once(' ').ok_or(LineError::Refused)?;
            for turn in 0..number(count)? {
                put_turn(bytes, alloc, turn, piece.as_bytes())?;
            }
            Ok(())
        }
        "x" => put_hexadecimal(bytes, text),
        _ => Err(LineError::Refused),
    }
}

/// Puts the piece behind the bytes, but for `@` and a digit d in it the turn's number plus d.
fn put_turn(bytes: &mut Vec<u8>, alloc: Global, turn: u64, piece: &[u8]) -> Result<(), LineError> {
    let mut marked = false;
    for byte in piece {
        if marked {
            let step = (*byte as char).to_digit(10).ok_or(LineError::Refused)?;
            let value = turn.saturating_add(u64::from(step));
            let text = format!(in alloc; "{value}")?;
            bytes.extend_from_slice(text.as_bytes())?;
            marked = false;
        } else if *byte == b'@' {
            marked = true;
        } else {
            bytes.push(*byte)?;
        }
    }
    Ok(())
}

/// Puts the bytes that are written here, each as a hexadecimal numeral.
fn put_hexadecimal(bytes: &mut Vec<u8>, text: &str) -> Result<(), LineError> {
    for word in text.split_whitespace() {
        let byte = u8::from_str_radix(word, 16).map_err(|_| LineError::Refused)?;
        bytes.push(byte)?;
    }
    Ok(())
}
