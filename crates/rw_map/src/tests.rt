//! What no contract says: that calls succeed where memory is there.

ghost use Rattle.rw_spec.specs.Tabled.{IsOver};

use crate::{Hom, compose};
use rw_schema::{ObjectId, OutOfMemory, PartMap, Rows, Schema, SchemaParts, Text};
use rw_table::Table;
use std::alloc::Global;
use std::test::Fail;

/// The schema of sets: one object, without arrows.
fn sets(alloc: Global) -> Result<Schema, Fail> {
    let mut objects = Vec::new(alloc);
    objects.push(Text::of(alloc, "V")?)?;
    let parts = SchemaParts {
        objects,
        arrows: Vec::new(alloc),
        attributes: Vec::new(alloc),
        equations: Vec::new(alloc),
    };
    Ok(Schema::build(alloc, parts)?)
}

/// One list, as a list of lists.
fn one_list(alloc: Global, list: &[u32]) -> Result<Vec<Vec<u32>>, OutOfMemory> {
    let mut lists = Vec::new(alloc);
    lists.push(Vec::from_slice(alloc, list)?)?;
    Ok(lists)
}

/// The set of these names, which are below 10.
fn set_of(alloc: Global, names: &[u32]) -> Result<Rows, OutOfMemory> {
    let names = one_list(alloc, names)?;
    let next = Vec::from_slice(alloc, &[10])?;
    Ok(Rows::from_lists(names, Vec::new(alloc), Vec::new(alloc), next))
}

/// The second of two functions of the set after the first.
fn after(
    alloc: Global,
    schema: &Schema,
    set: &Table,
    first: &PartMap,
    second: &PartMap,
) -> Result<PartMap, Fail>
    requires { IsOver schema.now set.now }
{
    Hom::check(schema, set, set, first)?;
    Hom::check(schema, set, set, second)?;
    Ok(compose(alloc, set, set, first, second)?)
}

/// The function that takes 2, 5 and 9 to 9, 2 and 5 after the one that takes them to 5, 9 and 9.
fn composed(alloc: Global, schema: &Schema, set: &Table) -> Result<PartMap, Fail>
    requires { IsOver schema.now set.now }
{
    let first = PartMap::from_lists(one_list(alloc, &[5, 9, 9])?);
    let second = PartMap::from_lists(one_list(alloc, &[9, 2, 5])?);
    after(alloc, schema, set, &first, &second)
}

#[test]
fn functions_are_composed(rt: HostRuntime) -> Result<(), Fail> {
    let schema = sets(rt.alloc())?;
    let set = Table::new(rt.alloc(), &schema, set_of(rt.alloc(), &[2, 5, 9])?)?;
    let map = composed(rt.alloc(), &schema, &set)?;
    assert!(rt; map.lists() == 1 && map.images(ObjectId(0)) == [2, 5, 5].as_slice());
    Ok(())
}
