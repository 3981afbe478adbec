//! Laws of the definitions alone.
ghost use Rattle.idl_term.specs.Laws.{LoweredIsMade, LoweredIsWorth, ContextsHaveScopes, RootsAreNodes, RootsAreExact, NamesAgree, ChoicesAreCounted, PairsAreCounted};

/// What a term is made into is worth what the term is worth, on every schedule; the table grows, and stays one of atoms over
/// the declared names.
pub fn lowered_law()
    ensures made { LoweredIsMade }
    ensures value { LoweredIsWorth }
{}

/// What holds in each context that declarations, definitions and assertions lead to: its names stand for terms of its table,
/// its assertions' nodes are in it, and on each schedule they are true exactly where the assertions are, and its names stand
/// for what they are worth.
pub fn context_law()
    ensures scope { ContextsHaveScopes }
    ensures roots { RootsAreNodes }
    ensures exact { RootsAreExact }
    ensures agrees { NamesAgree }
{}

/// A sum has as many cases as the product of its terms' numbers of cases, and so has a pair that is compared.
pub fn cases_law()
    ensures choices { ChoicesAreCounted }
    ensures pairs { PairsAreCounted }
{}
