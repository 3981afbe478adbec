//! Lemmas of an earlier problem, taken over to a new one.
use crate::lemmas::two_orders;
use carried_lemmas::carry;
use std::test::Fail;

#[test]
fn carries_what_there_is(rt: HostRuntime) -> Result<(), Fail> {
    let alloc = rt.alloc();
    let old = two_orders(alloc)?;
    let new = two_orders(alloc)?;
    let batch = carry(alloc, &old, &[], &new)?;
    assert_eq!(rt; batch.seen(), 0);
    assert!(rt; batch.lemmas().is_empty());
    Ok(())
}
