//! What the definitions say of a small plan.
ghost use Rattle.std.specs.Prelude.{◌≡◌, codes};
ghost use Rattle.dtp_gen.specs.Draws.{draw};
ghost use Rattle.dtp_gen.specs.Scripts.{script};

/// The first draws from 1, and the script of two jobs on one machine.
pub fn worked_script()
    ensures first { draw 1 0 ≡ 16838 }
    ensures second { draw 1 1 ≡ 5758 }
    ensures third { draw 1 2 ≡ 10113 }
    ensures fourth { draw 1 3 ≡ 17515 }
    ensures script { script (record { jobs = 2; machines = 1; start = 1; deadline = 108 }) ≡ codes
        "(set-logic QF_IDL)\n(declare-const s_0_0 Int)\n(declare-const s_1_0 Int)\n(assert (>= s_0_0 0))\n(assert (<= (+ s_0_0 17) 108))\n(assert (>= s_1_0 0))\n(assert (<= (+ s_1_0 92) 108))\n(assert (or (<= (- s_0_0 s_1_0) (- 17)) (<= (- s_1_0 s_0_0) (- 92))))\n(check-sat)\n(exit)\n" }
{}
