//! The header of a certificate.
ghost use Rattle.std.specs.Prelude.{◌≡◌, ◌≢◌, None, Err, IfOk, OnOk, IfErr};
ghost use Rattle.smt_sexpr.specs.Reading.{Spells};
ghost use Rattle.smt_sexpr.specs.Tree.{Sexpr};
ghost use Rattle.smt_sexpr.specs.Table.{Means, HasMeaning};
ghost use Rattle.cert_text.specs.Form.{header_sexpr};
ghost use Rattle.cert_read.specs.Certificates.{no_certificate, ErrorSays, ReadsCertificate};
ghost use Rattle.cert_read.specs.code.Shapes.{IsHeaderOf, version_of, told_as};

use crate::error::{CertReadError, CertificateRefusal};
use crate::number::is_numeral;
use cert_text::Version;
use smt_lex::Lexer;
use smt_sexpr::{SexprError, SexprId, Sexprs};
use std::alloc::Global;

/// The version whose header the s-expression is, `(dtp-certificate 1)` or `(dtp-certificate 2)`, or `None` for all else.
pub fn header_version(table: &Sexprs, id: SexprId) -> Option<Version>
    requires { HasMeaning table.now id }
    ensures { (x : Sexpr) → Means table.now id x → IsHeaderOf x result }
{
    match table.items(id) {
        Some([head, version]) if table.is_symbol(*head, b"dtp-certificate") => {
            version_of(table, *version)
        }
        _ => None,
    }
}

/// The version with this number.
fn version_of(table: &Sexprs, id: SexprId) -> Option<Version>
    requires { HasMeaning table.now id }
    ensures { (x : Sexpr) → Means table.now id x → result ≡ version_of x }
{
    if is_numeral(table, id, b"1") {
        Some(Version::One)
    } else if is_numeral(table, id, b"2") {
        Some(Version::Two)
    } else {
        None
    }
}

/// What an error of the reader is told as.
fn told_as(why: CertificateRefusal, error: SexprError) -> CertReadError
    ensures { result ≡ told_as why error }
{
    match error {
        SexprError::Refused(_) => CertReadError::Refused(why),
        SexprError::OutOfMemory => CertReadError::OutOfMemory,
    }
}

/// Reads the header.
pub(crate) fn read_header(alloc: Global, lexer: &mut Lexer) -> Result<Version, CertReadError>
    ensures header { lexer.old.failed ≡ None → IfOk result
        (λ version. Spells lexer.old.bytes lexer.old.place (header_sexpr version) lexer.new.place) }
    ensures refused { lexer.old.failed ≡ None → IfErr result
        (ErrorSays (λ why. ReadsCertificate lexer.old.bytes lexer.old.place (no_certificate why))) }
    ensures again { lexer.old.failed ≢ None → result ≡ Err (CertReadError.Refused CertificateRefusal.NoHeader) }
    ensures fresh { OnOk result (lexer.new.failed ≡ None) }
    ensures bytes { lexer.new.bytes ≡ lexer.old.bytes }
{
    let mut table = Sexprs::new(alloc, lexer.bytes());
    let id = match table.read_one(lexer) {
        Ok(Some(id)) => id,
        Ok(None) => return Err(CertReadError::Refused(CertificateRefusal::NoHeader)),
        Err(error) => return Err(told_as(CertificateRefusal::NoHeader, error)),
    };
    match header_version(&table, id) {
        None => Err(CertReadError::Refused(CertificateRefusal::NoHeader)),
        Some(version) => Ok(version),
    }
}
