use refute_tree::{StepView, Steps};
use std::mem;
use std::test::Fail;

#[test]
fn sizes(rt: HostRuntime) -> Result<(), Fail> {
    assert_eq!(rt; mem::size_of::<Steps>(), 144);
    assert_eq!(rt; mem::size_of::<StepView>(), 48);
    Ok(())
}

/// A number that tells the steps and their order.
fn weigh(steps: &Steps) -> u64 {
    let mut sum = 0u64;
    let mut reader = steps.reader();
    while let Some(step) = reader.next() {
        let weight = match step {
            StepView::Cycle(cycle) => cycle.len() as u64,
            StepView::Pair(l) => 20 + u64::from(l.x),
            StepView::Input(i) => (i as u64).wrapping_add(100),
            StepView::Lemma(j) => (j as u64).wrapping_add(1000),
            StepView::Clash(i) => (i as u64).wrapping_add(10000),
            StepView::Either(l) => 100000 + u64::from(l.x),
        };
        sum = sum.wrapping_mul(3).wrapping_add(weight);
    }
    sum
}

#[test]
fn references_are_moved(rt: HostRuntime) -> Result<(), Fail> {
    let mut steps = Steps::new(rt.alloc());
    steps.push_lemma(1)?;
    steps.push_lemma(2)?;
    steps.move_lemmas(2, 5);
    steps.truncate(2);
    assert_eq!(rt; weigh(&steps), 1001 * 3 + 1005);
    let mut large = Steps::new(rt.alloc());
    large.push_lemma(1)?;
    large.push_lemma((1 << 33) + 2)?;
    large.move_lemmas(1 << 33, 5);
    assert_eq!(rt; weigh(&large), 1001 * 3 + 1007);
    Ok(())
}
