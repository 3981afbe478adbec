use dtp_gen::instance;
use std::test::Fail;

/// The durations are 17 and 92.
const TWO_JOBS: &[u8] = b"(set-logic QF_IDL)
(declare-const s_0_0 Int)
(declare-const s_1_0 Int)
(assert (>= s_0_0 0))
(assert (<= (+ s_0_0 17) 108))
(assert (>= s_1_0 0))
(assert (<= (+ s_1_0 92) 108))
(assert (or (<= (- s_0_0 s_1_0) (- 17)) (<= (- s_1_0 s_0_0) (- 92))))
(check-sat)
(exit)
";

#[test]
fn two_jobs_on_one_machine(rt: HostRuntime) -> Result<(), Fail> {
    let text = instance(rt.alloc(), 2, 1, 1, 108)?;
    assert_eq!(rt; text.as_slice(), TWO_JOBS);
    Ok(())
}
