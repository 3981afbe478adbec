//! Laws of the definitions alone.
ghost use Rattle.idl_node.specs.Laws.{NodeTruth, TruthStays, PlacedSays, AlwaysSays, NeverSays, NegationSays, EqualitySays, DifferenceSays, ChoiceSays, EverySays, SomeSays, ExclusionSays, ImplicationSays, AllEqualSays, AllDifferentSays};

/// The truth of a node of a table is that of its members, and stays the same as the table grows.
pub fn truth_law()
    ensures node { NodeTruth }
    ensures longer { TruthStays }
{}

/// Each making of one node, or of two, keeps a table, and the node says of its members what the formula says.
pub fn making_law()
    ensures placed { PlacedSays }
    ensures always { AlwaysSays }
    ensures never { NeverSays }
    ensures negation { NegationSays }
    ensures equality { EqualitySays }
    ensures difference { DifferenceSays }
    ensures choice { ChoiceSays }
{}

/// Each making of a list of nodes keeps a table, and the node says of its members what the formula says.
pub fn list_making_law()
    ensures every { EverySays }
    ensures some { SomeSays }
    ensures exclusion { ExclusionSays }
    ensures implication { ImplicationSays }
    ensures equality { AllEqualSays }
    ensures difference { AllDifferentSays }
{}
