//! What the definition of a command line says: calls with an empty body, whose contracts are laws.
ghost use Rattle.std.specs.Prelude.{◌≡◌, ◌≢◌, List, [], Some, None};
ghost use Rattle.clap.specs.Words.{Text, fault_of};
ghost use Rattle.command_line.specs.declared.line.Line.{Line};
ghost use Rattle.command_line.specs.Apps.{dtp_app};
ghost use Rattle.command_line.specs.Lines.{line_of};
ghost use Rattle.command_line.specs.Plain.{IsPlainLine};

/// A plain line asks for what it says: a command, then its options in any order, each at most once and as two words.
#[tactic(auto, using(crate::proofs::Saying::plain_line))]
pub fn plain_line_law()
    ensures { (words : List Text) (line : Line) → IsPlainLine words line → line_of words ≡ Some line }
{}

/// Where the words ask for nothing, `clap` finds a fault in them.
#[tactic(auto, using(crate::proofs::Faulting::no_line_has_fault))]
pub fn fault_law()
    ensures { (words : List Text) → line_of words ≡ None → fault_of dtp_app words ≢ [] }
{}
