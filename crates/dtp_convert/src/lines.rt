//! A certificate of the first version, line by line.
ghost use Rattle.std.specs.Prelude.{◌≡◌, []};
ghost use Rattle.cert_text.specs.declared.entry.Version.TheVariants.{One};
ghost use Rattle.cert_text.specs.Form.{header_sexpr, end_sexpr, line_of};
ghost use Rattle.dtp_entry.specs.Written.{WritesOne};
ghost use Rattle.cert_stream.specs.code.Streams.{Streams, entry_lines, whole_text};

use cert_stream::write_entry;
use cert_text::{Entry, Version, write_end, write_header};
use dtp_entry::{SessionError, write_text};
use dtp_io::Sink;
use std::alloc::Global;

fn write_first_line<K: Sink>(alloc: Global, sink: &mut K) -> Result<(), SessionError>
    ensures { WritesOne (λ text. text ≡ line_of (header_sexpr One)) (K.holds sink.old) (K.holds sink.new)
        (K.faults sink.old) (K.faults sink.new) result }
{
    let mut text = Vec::new(alloc);
    write_header(Version::One, &mut text)?;
    write_text(sink, &text)
}

fn write_last_line<K: Sink>(alloc: Global, sink: &mut K) -> Result<(), SessionError>
    ensures { WritesOne (λ text. text ≡ line_of end_sexpr) (K.holds sink.old) (K.holds sink.new)
        (K.faults sink.old) (K.faults sink.new) result }
{
    let mut text = Vec::new(alloc);
    write_end(&mut text)?;
    write_text(sink, &text)
}

// Nothing waits to be written before or behind it.
fn write_each<K: Sink>(alloc: Global, entries: &[Entry], sink: &mut K) -> Result<(), SessionError>
    ensures { Streams (entry_lines entries.now) [] [] (K.holds sink.old) (K.holds sink.new)
        (K.faults sink.old) (K.faults sink.new) result }
{
    for entry in entries {
        write_entry(alloc, entry, sink)?;
    }
    Ok(())
}

/// Writes a whole certificate of the first version. Each line goes out by itself, and that of an entry in pieces where it is
/// long. Without memory for a line, those before it are written.
pub fn write_lines<K: Sink>(
    alloc: Global,
    entries: &[Entry],
    sink: &mut K,
) -> Result<(), SessionError>
    ensures { WritesOne (λ text. text ≡ whole_text One entries.now) (K.holds sink.old) (K.holds sink.new)
        (K.faults sink.old) (K.faults sink.new) result }
{
    write_first_line(alloc, sink)?;
    write_each(alloc, entries, sink)?;
    write_last_line(alloc, sink)?;
    Ok(())
}
