//! What a question is decided for.
ghost use Rattle.std.specs.Prelude.{◌≡◌};
ghost use Rattle.dtp_session.specs.code.Forms.{version_wanted};

use bstr::ByteSlice;
use cert_text::Version;

/// What a question is decided for.
#[derive(Clone, Copy, Debug, PartialEq, Eq)]
pub enum Wanted {
    /// Its verdict, and the values of its schedule: no proof is asked for behind it.
    Verdict,
    /// Its entry, in this version's form.
    Entry(Version),
}

impl Wanted {
    /// The version in whose form the entry is: a proof that a transcript shows has that of the first.
    pub fn version(self) -> Version
        ensures { result ≡ version_wanted self }
    {
        match self {
            Wanted::Verdict => Version::One,
            Wanted::Entry(version) => version,
        }
    }
}

/// Where words of a script stand for the last time.
#[derive(Clone, Copy, Debug, PartialEq, Eq)]
pub struct LastWords {
    /// Where the last word `get-proof` begins: behind it no proof is asked for. 0 where there is none.
    pub proof: usize,
    /// Where the last word that asks a question begins: behind it nothing is searched. 0 where there is none.
    pub question: usize,
}

impl LastWords {
    /// Those of the script.
    pub fn of(script: &[u8]) -> Self {
        let check = script.rfind(b"check-sat").unwrap_or(0);
        let behind = script.get(check..).unwrap_or(&[]);
        let minimize = behind.rfind(b"minimize").unwrap_or(0);
        LastWords {
            proof: script.rfind(b"get-proof").unwrap_or(0),
            question: check.saturating_add(minimize),
        }
    }
}
