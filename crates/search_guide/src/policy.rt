//! Which of its mechanisms a search uses, so that each can be left out and its worth be measured.

/// What a search does beside decisions, clauses, the net and what conflicts teach. Whatever it says, the search
/// answers by the same contract: it takes another time for it.
#[derive(Clone, Copy, Debug, PartialEq, Eq)]
pub struct Policy {
    /// the greatest count of time points between which distances are kept, 0 for none
    pub most_rows: usize,
    /// whether bounds that are common to a clause's alternatives become literals
    pub new_literals: bool,
    /// whether it goes back now and then
    pub restarts: bool,
    /// whether literals that follow from a learned clause's others are left out of it
    pub minimization: bool,
    /// whether an atom is decided as it stood on the trail last
    pub saved_phases: bool,
    /// whether lemmas leave the watches
    pub forgetting: bool,
    /// whether pure literals stay out of the net until there is a model
    pub pure_apart: bool,
    /// whether a literal brings about the weaker bounds on its pair
    pub ladders: bool,
    /// whether others wait for a half of its cube, where it divides that
    pub shares: bool,
}

impl Default for Policy {
    /// All of it, with distances for as many points as pay.
    fn default() -> Self {
        Policy {
            most_rows: 1_000,
            new_literals: true,
            restarts: true,
            minimization: true,
            saved_phases: true,
            forgetting: true,
            pure_apart: true,
            ladders: true,
            shares: true,
        }
    }
}
