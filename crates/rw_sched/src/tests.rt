//! Which boxes and wires are a schedule.

use super::*;
use std::alloc::Global;
use std::test::Fail;

/// A loop with these wires, and a box that names the rule 0 or ends the run.
fn looped(
    alloc: Global,
    count: u32,
    to: &[u32],
    last: BoxKind,
    ports: &[u32],
) -> Result<Option<WireFault>, Fail> {
    let boxes = vec![in alloc; BoxKind::Loop(count), last]?;
    let wires = vec![in alloc; to.to_vec(alloc)?, ports.to_vec(alloc)?]?;
    Ok(Schedule::build(boxes, wires, 0, 0).err())
}

#[test]
fn schedules_are_refused_by_their_first_fault(rt: HostRuntime) -> Result<(), Fail> {
    let alloc = rt.alloc();
    assert_eq!(rt; looped(alloc, 2, &[0, 1], BoxKind::Exit, &[])?, None);
    assert_eq!(rt;
        looped(alloc, 1_000_000, &[1, 0], BoxKind::Exit, &[])?,
        None
    );
    assert_eq!(rt;
        looped(alloc, 0, &[9], BoxKind::Exit, &[])?,
        Some(WireFault::Limit)
    );
    assert_eq!(rt;
        looped(alloc, 2, &[0], BoxKind::Exit, &[])?,
        Some(WireFault::Ports { place: 0 })
    );
    assert_eq!(rt;
        looped(alloc, 2, &[0, 2], BoxKind::Exit, &[])?,
        Some(WireFault::Wire { place: 0, port: 1 })
    );
    let rule = looped(alloc, 2, &[0, 1], BoxKind::Rule(0, Pick::First), &[0, 1])?;
    assert_eq!(rt; rule, Some(WireFault::Unknown { place: 1 }));
    let weights = vec![in alloc; 3, 1_000_001]?;
    let draw = looped(
        alloc,
        2,
        &[0, 1],
        BoxKind::Draw(Weights::of(weights)),
        &[0, 1],
    )?;
    assert_eq!(rt; draw, Some(WireFault::Limit));
    Ok(())
}
