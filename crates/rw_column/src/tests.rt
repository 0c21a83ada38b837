//! What no contract says: that calls succeed where memory is there. The places that are walked are worked out by hand.

ghost use Rattle.std.specs.Prelude.{◌≡◌, ◌<◌, [], ◌∷◌, IfOk};
ghost use Rattle.rw_column.specs.Threads.{nothing};

use crate::{Column, Walk};
use rw_steps::Steps;
use std::alloc::{AllocError, Global};
use std::marker::Brand;
use std::sync::ledger::{Blank, Ledger};

/// The places that a walk over the number gives.
fn walked<L: Ledger>(
    alloc: Global,
    column: &Column,
    value: u32,
    blank: Blank,
) -> Result<Vec<u32>, AllocError>
    requires value { value < column.now.targets }
    requires name { blank.name ≡ L.name }
    requires parts { blank.parts ≡ L.parts }
    requires some { 0 < L.parts }
{
    let mut steps: Steps<L> = Steps::new(blank);
    let mut places = Vec::new(alloc);
    let mut walk = Walk::new(column, value);
    while let Some(place) = walk.next(&mut steps) {
        places.push(place)?;
    }
    Ok(places)
}

/// Whether a walk over the number gives these places.
fn walks(alloc: Global, column: &Column, value: u32, want: &[u32]) -> Result<bool, AllocError>
    requires { value < column.now.targets }
{
    let places = walked::<Brand>(alloc, column, value, Blank::new(1))?;
    Ok(places.as_slice() == want)
}

/// The column 1, 1, 0, 1, 1 of three numbers, of which 2 stands nowhere. Its places are not linked in ascending order.
fn sample(alloc: Global) -> Result<Column, AllocError>
    ensures values { IfOk result (λ column. column.values ≡ 1 ∷ 1 ∷ 0 ∷ 1 ∷ 1 ∷ []) }
    ensures targets { IfOk result (λ column. column.targets ≡ 3) }
{
    let mut column = Column::new(alloc, 5, 3)?;
    column.link(3, 1);
    column.link(0, 1);
    column.link(4, 1);
    column.link(2, 0);
    column.link(1, 1);
    Ok(column)
}

#[test]
fn walks_the_places_of_each_number(rt: HostRuntime) -> Result<(), AllocError> {
    let alloc = rt.alloc();
    let column = sample(alloc)?;
    assert!(rt; walks(alloc, &column, 0, &[2])?);
    assert!(rt; walks(alloc, &column, 1, &[0, 1, 3, 4])?);
    assert!(rt; walks(alloc, &column, 2, &[])?);
    Ok(())
}

#[test]
fn walks_the_places_that_are_left(rt: HostRuntime) -> Result<(), AllocError> {
    let alloc = rt.alloc();
    let mut column = sample(alloc)?;
    column.unlink(1);
    assert!(rt; walks(alloc, &column, 1, &[0, 3, 4])?);
    column.unlink(0);
    assert!(rt; walks(alloc, &column, 1, &[3, 4])?);
    column.unlink(4);
    assert!(rt; walks(alloc, &column, 1, &[3])?);
    column.link(0, 2);
    assert!(rt; walks(alloc, &column, 2, &[0])?);
    Ok(())
}

#[test]
fn takes_a_place_and_a_number_within_its_room(rt: HostRuntime) -> Result<(), AllocError> {
    let alloc = rt.alloc();
    let mut column = sample(alloc)?;
    column.make_room(1, 1)?;
    column.add_place();
    column.add_target();
    column.link(5, 3);
    assert!(rt; column.places() == 6 && column.value(4) == 1 && column.value(5) == 3);
    assert!(rt; column.has(5, 3) && !column.has(5, 1) && !column.has(6, 3));
    assert!(rt; walks(alloc, &column, 1, &[0, 1, 3, 4])?);
    assert!(rt; walks(alloc, &column, 3, &[5])?);
    Ok(())
}

#[test]
fn links_places_before_one_that_is_there(rt: HostRuntime) -> Result<(), AllocError> {
    let alloc = rt.alloc();
    let mut column = sample(alloc)?;
    column.unlink(0);
    column.unlink(3);
    column.link_before(3, 1, 4);
    column.link_before(0, 1, 3);
    assert!(rt; walks(alloc, &column, 1, &[0, 1, 3, 4])?);
    Ok(())
}
