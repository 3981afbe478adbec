ghost use Rattle.std.specs.Prelude.{◌≡◌};
ghost use Rattle.dtp_entry.specs.Reports.{version_of};

use cert_text::Version;

/// What is written of a script.
#[derive(Clone, Copy, Debug, PartialEq, Eq)]
pub enum Report {
    /// The transcript: each command's answer.
    Verdicts,
    /// The certificate, of this version: for each question the entry that decides it.
    Certificate(Version),
}

impl Report {
    /// The version that its entries have: a proof that a transcript shows has the form of the first.
    pub fn version(self) -> Version
        ensures { result ≡ version_of self }
    {
        match self {
            Report::Verdicts => Version::One,
            Report::Certificate(version) => version,
        }
    }
}
