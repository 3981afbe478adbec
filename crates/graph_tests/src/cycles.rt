use neg_cycle::{cut_walk, is_cycle, rotate_to};
use std::alloc::AllocError;
use std::test::Fail;
use stn_core::{Literal, Literals};

/// A simple cycle out of the walk, which is turned by one literal then; nothing, where the walk is no negative cycle.
fn cut_and_turned(walk: Literals) -> Result<Option<Literals>, AllocError> {
    if !is_cycle(walk.as_slice()) {
        return Ok(None);
    }
    let cycle = cut_walk(walk)?;
    if cycle.as_slice().len() < 2 {
        return Ok(None);
    }
    Ok(Some(rotate_to(cycle, 1)))
}

#[test]
fn a_walk_is_cut_and_turned(rt: HostRuntime) -> Result<(), Fail> {
    let alloc = rt.alloc();
    let walk = [
        Literal { x: 1, y: 2, c: 0 },
        Literal { x: 2, y: 3, c: -1 },
        Literal { x: 3, y: 2, c: 0 },
        Literal { x: 2, y: 1, c: 0 },
    ];
    let turned = match cut_and_turned(Literals::new(walk.to_vec(alloc)?))? {
        None => Vec::new(alloc),
        Some(cycle) => cycle.into_vec(),
    };
    assert_eq!(rt; turned.as_slice(), [walk[2], walk[1]].as_slice());
    Ok(())
}
