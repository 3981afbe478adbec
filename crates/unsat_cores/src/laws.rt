//! Laws of the definitions alone.
ghost use Rattle.unsat_cores.specs.Laws.{CitedLaw, LengthenedCites, LengthenedRoots, CoreLaw};

/// What refutes a problem refutes the clauses that it cites.
pub fn cited_law()
    ensures { CitedLaw }
{
    stn_core::cycle_law();
    stn_core::negation_law();
}

/// A refutation cites the same clauses and roots when its clashes are written out.
pub fn lengthened_law()
    ensures clauses { LengthenedCites }
    ensures roots { LengthenedRoots }
{}

/// No schedule makes all roots true together from which the clauses come that a refutation cites.
pub fn core_law()
    ensures { CoreLaw }
{
    cited_law();
    clause_form::sources_law();
}
