//! Text that waits, and goes out when it is long.
#![tactic(auto, unfolding(smt_lex::specs::Bytes::is_symbol_byte))]

ghost use Rattle.std.specs.Prelude.{◌≡◌, ◌∷◌, [], ◌++◌, map, codes, OnOk};
ghost use Rattle.smt_sexpr.specs.Printing.{text_of, text_behind};
ghost use Rattle.smt_sexpr.specs.Shapes.{form, items_of, list_of};
ghost use Rattle.cert_text.specs.declared.entry.Entry.TheVariants.{Unbounded};
ghost use Rattle.cert_text.specs.Form.{number_of_value, values_sexpr, entry_sexpr, file_entry_sexpr, line_of, shown_by};
ghost use Rattle.dtp_entry.specs.Written.{WritesOne};
ghost use Rattle.cert_stream.specs.code.Streams.{Streams};

use bstr::ByteVec;
use cert_text::{Entry, Part};
use dtp_entry::{SessionError, write_text};
use dtp_io::Sink;
use kept_lemmas::Item;
use std::alloc::{AllocError, Global};
use stn_core::{NamedValue, Value};

/// How long the text is at least that goes out before the entry's end.
const LONG: usize = 1 << 16;

// Writes the text that waits, where it is long.
fn settle<K: Sink>(text: &mut Vec<u8>, sink: &mut K) -> Result<(), SessionError>
    ensures { Streams [] text.old.items text.new.items (K.holds sink.old) (K.holds sink.new)
        (K.faults sink.old) (K.faults sink.new) result }
{
    if text.len() < LONG {
        return Ok(());
    }
    write_text(sink, text.as_slice())?;
    text.clear();
    Ok(())
}

// The same as `write_behind` of `cert_text`: the items, each behind a space, and the closing parenthesis.
fn stream_behind<T: Part, K: Sink>(
    items: &[T],
    text: &mut Vec<u8>,
    sink: &mut K,
) -> Result<(), SessionError>
    ensures { Streams (text_behind (items_of (map (λ x. T.sexpr x) items.now)))
        text.old.items text.new.items (K.holds sink.old) (K.holds sink.new)
        (K.faults sink.old) (K.faults sink.new) result }
{
    for item in items {
        item.write_next(text)?;
        settle(text, sink)?;
    }
    text.push_str(b")")?;
    Ok(())
}

// A line that begins so, with the items behind it.
fn stream_line<T: Part, K: Sink>(
    head: &[u8],
    items: &[T],
    text: &mut Vec<u8>,
    sink: &mut K,
) -> Result<(), SessionError>
    ensures { Streams (head.now ++ (text_behind (items_of (map (λ x. T.sexpr x) items.now)) ++ 10 ∷ []))
        text.old.items text.new.items (K.holds sink.old) (K.holds sink.new)
        (K.faults sink.old) (K.faults sink.new) result }
{
    text.push_str(head)?;
    stream_behind(items, text, sink)?;
    text.push_str(b"\n")?;
    Ok(())
}

// The first item of a list, behind the list's parenthesis.
fn begin_list<T: Part>(first: &T, text: &mut Vec<u8>) -> Result<(), AllocError>
    ensures { OnOk result (text.new.items ≡ text.old.items ++ 40 ∷ text_of (T.sexpr first.now)) }
{
    text.push_str(b"(")?;
    first.write(text)
}

// A list of its own.
fn stream_list<T: Part, K: Sink>(
    items: &[T],
    text: &mut Vec<u8>,
    sink: &mut K,
) -> Result<(), SessionError>
    ensures { Streams (text_of (list_of (map (λ x. T.sexpr x) items.now)))
        text.old.items text.new.items (K.holds sink.old) (K.holds sink.new)
        (K.faults sink.old) (K.faults sink.new) result }
{
    match items.split_first() {
        None => {
            text.push_str(b"()")?;
            Ok(())
        }
        Some((first, rest)) => {
            begin_list(first, text)?;
            stream_behind(rest, text, sink)
        }
    }
}

// What a line of a least value begins with, up to the list of values.
fn begin_best(least: Value, text: &mut Vec<u8>) -> Result<(), AllocError>
    ensures { OnOk result (text.new.items ≡ text.old.items
        ++ (codes "(best " ++ (text_of (number_of_value least) ++ 32 ∷ []))) }
{
    text.push_str(b"(best ")?;
    least.write(text)?;
    text.push_str(b" ")
}

// The line of a least value, with lemmas or other items behind the values.
fn stream_best<T: Part, K: Sink>(
    least: Value,
    values: &[NamedValue],
    items: &[T],
    text: &mut Vec<u8>,
    sink: &mut K,
) -> Result<(), SessionError>
    ensures { Streams (line_of (form (codes "best") (number_of_value least ∷ values_sexpr values.now ∷ map (λ x. T.sexpr x) items.now)))
        text.old.items text.new.items (K.holds sink.old) (K.holds sink.new)
        (K.faults sink.old) (K.faults sink.new) result }
{
    begin_best(least, text)?;
    stream_list(values, text, sink)?;
    stream_line(b"", items, text, sink)
}

// The line of a term without a least value.
fn stream_unbounded<K: Sink>(
    values: &[Value],
    points: &[u32],
    text: &mut Vec<u8>,
    sink: &mut K,
) -> Result<(), SessionError>
    ensures { Streams (line_of (entry_sexpr (Unbounded values.now points.now)))
        text.old.items text.new.items (K.holds sink.old) (K.holds sink.new)
        (K.faults sink.old) (K.faults sink.new) result }
{
    text.push_str(b"(unbounded ")?;
    stream_list(values, text, sink)?;
    text.push_str(b" ")?;
    stream_list(points, text, sink)?;
    text.push_str(b")\n")?;
    Ok(())
}

fn stream_entry<K: Sink>(
    entry: &Entry,
    text: &mut Vec<u8>,
    sink: &mut K,
) -> Result<(), SessionError>
    ensures { Streams (line_of (entry_sexpr entry.now))
        text.old.items text.new.items (K.holds sink.old) (K.holds sink.new)
        (K.faults sink.old) (K.faults sink.new) result }
{
    match entry {
        Entry::Sat(values) => stream_line(b"(sat", values.as_slice(), text, sink),
        Entry::Unsat(refutation) => stream_line(b"(unsat", refutation.as_slice(), text, sink),
        Entry::Best(least, values, refutation) => {
            stream_best(*least, values.as_slice(), refutation.as_slice(), text, sink)
        }
        Entry::Unbounded(values, points) => {
            stream_unbounded(values.as_slice(), points.as_slice(), text, sink)
        }
    }
}

fn stream_shown<K: Sink>(
    entry: &Entry,
    items: &[Item],
    text: &mut Vec<u8>,
    sink: &mut K,
) -> Result<(), SessionError>
    ensures { Streams (line_of (file_entry_sexpr (shown_by entry.now items.now)))
        text.old.items text.new.items (K.holds sink.old) (K.holds sink.new)
        (K.faults sink.old) (K.faults sink.new) result }
{
    match entry {
        Entry::Sat(values) => stream_line(b"(sat", values.as_slice(), text, sink),
        Entry::Unsat(_) => stream_line(b"(unsat", items, text, sink),
        Entry::Best(least, values, _) => stream_best(*least, values.as_slice(), items, text, sink),
        Entry::Unbounded(values, points) => {
            stream_unbounded(values.as_slice(), points.as_slice(), text, sink)
        }
    }
}

/// Writes the line of an entry with these items in the place of its lemmas, in pieces. Without memory for a piece, those before it are written.
pub fn write_shown<K: Sink>(
    alloc: Global,
    entry: &Entry,
    items: &[Item],
    sink: &mut K,
) -> Result<(), SessionError>
    ensures { WritesOne (λ text. text ≡ line_of (file_entry_sexpr (shown_by entry.now items.now))) (K.holds sink.old) (K.holds sink.new)
        (K.faults sink.old) (K.faults sink.new) result }
{
    let mut text = Vec::new(alloc);
    stream_shown(entry, items, &mut text, sink)?;
    write_text(sink, text.as_slice())?;
    Ok(())
}

/// Writes the line of an entry, in pieces. Without memory for a piece, those before it are written.
pub fn write_entry<K: Sink>(alloc: Global, entry: &Entry, sink: &mut K) -> Result<(), SessionError>
    ensures { WritesOne (λ text. text ≡ line_of (entry_sexpr entry.now)) (K.holds sink.old) (K.holds sink.new)
        (K.faults sink.old) (K.faults sink.new) result }
{
    let mut text = Vec::new(alloc);
    stream_entry(entry, &mut text, sink)?;
    write_text(sink, text.as_slice())?;
    Ok(())
}

#[cfg(test)]
mod tests {
    use super::*;
    use dtp_io::MemSink;
    use std::test::Fail;
    use stn_core::{NamedValue, NamedValues};

    /// How long the line of so many values is.
    fn length_of(alloc: Global, count: usize) -> Result<usize, SessionError> {
        let values = NamedValues::new(vec![in alloc; NamedValue::Int(7); count]?);
        let mut sink = MemSink::new(alloc, &[]);
        write_entry(alloc, &Entry::Sat(values), &mut sink)?;
        Ok(sink.held().len())
    }

    #[test]
    fn a_line_in_pieces(rt: HostRuntime) -> Result<(), Fail> {
        let short = length_of(rt.alloc(), 1);
        let long = length_of(rt.alloc(), 100_000);
        assert_eq!(rt; (short, long), (Ok(8), Ok(200_006)));
        Ok(())
    }
}
