//! What stands behind the script's part of a source.
ghost use Rattle.std.specs.Prelude.{◌≡◌, IfOk, None};
ghost use Rattle.dtp_check.specs.code.Behind.{IsBehind};
ghost use Rattle.dtp_check.specs.code.Parts.{IsBefore, IsReadable};

use crate::script_part::PartEnd;
use cert_read::{CertReadError, CertificateRefusal, EntryReader};
use smt_lex::Lexer;
use std::alloc::{AllocError, Global};

/// What stands behind the script: the header of a certificate, whose entries are still to be read, or none.
#[derive(Drop)]
pub enum Behind<'a> {
    Opened(EntryReader<'a>),
    Refused(CertificateRefusal),
}

/// Opens the certificate behind a script that can be read. The lexer stands behind the script's part.
pub fn open_behind<'a>(
    alloc: Global,
    lexer: Lexer<'a>,
    end: PartEnd,
) -> Result<Behind<'a>, AllocError>
    requires fresh { IsBefore end → lexer.failed ≡ None }
    ensures { IfOk result (λ behind. IsReadable end → IsBehind lexer.entry.bytes end lexer.entry.place behind) }
{
    match end {
        PartEnd::Exit => match EntryReader::open(alloc, lexer) {
            Ok(entries) => Ok(Behind::Opened(entries)),
            Err(CertReadError::Refused(why)) => Ok(Behind::Refused(why)),
            Err(CertReadError::OutOfMemory) => Err(AllocError),
        },
        PartEnd::Header(version) => Ok(Behind::Opened(EntryReader::new(alloc, version, lexer))),
        _ => Ok(Behind::Refused(CertificateRefusal::NoHeader)),
    }
}
