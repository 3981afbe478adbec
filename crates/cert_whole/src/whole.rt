//! All entries of a certificate.
ghost use Rattle.std.specs.Prelude.{◌≡◌, ◌≢◌, None, Err, IfOk, IfErr};
ghost use Rattle.cert_text.specs.declared.entry.Version.{Version};
ghost use Rattle.cert_read.specs.declared.error.CertReadError.TheVariants.{Refused};
ghost use Rattle.cert_read.specs.declared.error.CertificateRefusal.TheVariants.{NoHeader};
ghost use Rattle.cert_read.specs.Certificates.{certificate, no_certificate, ErrorSays, ReadsCertificate};
ghost use Rattle.cert_read.specs.code.Entries.{AreAllLeft, IsRefusedFrom};

use cert_read::{CertReadError, EntryReader};
use cert_text::FileEntry;
use smt_lex::Lexer;
use std::alloc::Global;

/// All entries that are left, to the end of the text.
fn all_entries(alloc: Global, reader: &mut EntryReader) -> Result<Vec<FileEntry>, CertReadError>
    ensures entries { IfOk result (λ entries. AreAllLeft reader.old entries.items) }
    ensures refused { IfErr result (ErrorSays (IsRefusedFrom reader.old)) }
{
    let mut entries = Vec::new(alloc);
    'entries: while let Some(entry) = reader.next(alloc)? {
        entries.push(entry)?;
    }
    Ok(entries)
}

/// Reads a certificate of either version from the lexer's place to the end of the text. A lexer that gave an error before reads no
/// header. It takes time linear in the text, and memory for the entries and for the greatest item's s-expression.
pub fn read_certificate(alloc: Global, lexer: Lexer<'_>) -> Result<Vec<FileEntry>, CertReadError>
    ensures entries { lexer.entry.failed ≡ None → IfOk result (λ entries. (version : Version)
        × ReadsCertificate lexer.entry.bytes lexer.entry.place (certificate version entries.items)) }
    ensures refused { lexer.entry.failed ≡ None → IfErr result
        (ErrorSays (λ why. ReadsCertificate lexer.entry.bytes lexer.entry.place (no_certificate why))) }
    ensures again { lexer.entry.failed ≢ None → result ≡ Err (Refused NoHeader) }
{
    let mut reader = EntryReader::open(alloc, lexer)?;
    let entries = all_entries(alloc, &mut reader)?;
    Ok(entries)
}

#[cfg(test)]
mod tests {
    use super::*;
    use cert_read::CertificateRefusal;
    use std::test::Fail;

    #[test]
    fn reads_all_entries(rt: HostRuntime) -> Result<(), Fail> {
        let whole = b"(dtp-certificate 2)\n(sat 1 false)\n(unbounded (0) (1))\n(end)\n";
        let entries = read_certificate(rt.alloc(), Lexer::new(whole))?;
        assert_eq!(rt; entries.len(), 2);
        let cut = b"(dtp-certificate 2)\n(sat 1 false)\n";
        assert_eq!(rt;
            read_certificate(rt.alloc(), Lexer::new(cut)).err(),
            Some(CertReadError::Refused(CertificateRefusal::NoEnd))
        );
        Ok(())
    }
}
