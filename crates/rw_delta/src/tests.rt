//! What no contract says: that calls succeed where memory is there.

ghost use Rattle.std.specs.Prelude.{◌≡◌, ◌≢◌, ◌<◌, [], ◌∷◌, IfOk, IsTrue, None, length, map};
ghost use Rattle.rw_schema.specs.Presentation.{signature_of};
ghost use Rattle.rw_schema.specs.Signature.{source_of, holder_of};
ghost use Rattle.rw_spec.specs.Instance.{Has};
ghost use Rattle.rw_columns.specs.ChangedColumns.{FitsColumns};
ghost use Rattle.rw_columns.specs.Columned.{instance_of_columns};
ghost use Rattle.rw_columns.specs.inner.Examples.{with_more};

use crate::{After, Changed, Delta, Probe};
use rw_columns::{Added, Change, Columns};
use rw_schema::{
    ArrowDef, ArrowId, Atom, AttrDef, AttrId, Kind, ObjectId, OutOfMemory, Rows, Schema,
    SchemaParts, Text,
};
use rw_steps::Steps;
use rw_table::Table;
use std::alloc::Global;
use std::marker::Brand;
use std::sync::ledger::{Blank, Ledger};
use std::test::Fail;

const V: ObjectId = ObjectId(0);

const E: ObjectId = ObjectId(1);

const SRC: ArrowId = ArrowId(0);

const TGT: ArrowId = ArrowId(1);

const WEIGHT: AttrId = AttrId(0);

// The arrow from edges to vertices with the name.
fn end(alloc: Global, name: &str) -> Result<ArrowDef, Fail> {
    Ok(ArrowDef {
        name: Text::of(alloc, name)?,
        source: E,
        target: V,
    })
}

// Two lists.
fn two_lists(alloc: Global, first: &[u32], second: &[u32]) -> Result<Vec<Vec<u32>>, OutOfMemory>
    ensures { IfOk result (λ lists. map (λ list. list.items) lists.items ≡ first.now ∷ second.now ∷ []) }
{
    let mut lists = Vec::new(alloc);
    lists.push(Vec::from_slice(alloc, first)?)?;
    lists.push(Vec::from_slice(alloc, second)?)?;
    Ok(lists)
}

// The columns of lists that are an instance.
fn columns_of(alloc: Global, schema: &Schema, rows: Rows) -> Result<Columns, Fail>
    ensures { IfOk result (λ columns. columns.signature ≡ signature_of schema.now) }
{
    let table = Table::new(alloc, schema, rows)?;
    Ok(Columns::from_rows(alloc, schema, table.rows())?)
}

// The schema of graphs whose vertices have a weight each.
fn weighted(alloc: Global) -> Result<Schema, Fail> {
    let weight = AttrDef {
        name: Text::of(alloc, "weight")?,
        object: V,
        kind: Kind::Int,
    };
    let parts = SchemaParts {
        objects: vec![in alloc; Text::of(alloc, "V")?, Text::of(alloc, "E")?]?,
        arrows: vec![in alloc; end(alloc, "src")?, end(alloc, "tgt")?]?,
        attributes: vec![in alloc; weight]?,
        equations: Vec::new(alloc),
    };
    Ok(Schema::build(alloc, parts)?)
}

// Three vertices, of which 1 alone has a weight, 7, with edges 0 from 0 to 1, 1 from 0 to 2, and 2 from 2 to 1.
fn weighted_edges(alloc: Global) -> Result<Rows, OutOfMemory> {
    let names = two_lists(alloc, &[0, 1, 2], &[0, 1, 2])?;
    let arrows = two_lists(alloc, &[0, 0, 2], &[1, 2, 1])?;
    let cells = vec![in alloc; vec![in alloc; None, Some(Atom::Int(7)), None]?]?;
    let next = Vec::from_slice(alloc, &[3, 3])?;
    Ok(Rows::from_lists(names, arrows, cells, next))
}

// The rows in which edge 2 leads to vertex 3.
fn moved_row(alloc: Global) -> Result<Vec<Vec<(u32, u32)>>, OutOfMemory>
    ensures { IfOk result (λ lists. map (λ list. list.items) lists.items ≡ [] ∷ ((2, 3) ∷ []) ∷ []) }
{
    let moved = vec![in alloc; (2, 3)]?;
    Ok(vec![in alloc; Vec::new(alloc), moved]?)
}

// Vertex 3 without a weight, edge 3 from it to vertex 0, and the next names 4.
fn more_parts(alloc: Global) -> Result<Added, OutOfMemory>
    ensures { IfOk result (λ rows. rows ≡ with_more.added) }
{
    let names = two_lists(alloc, &[3], &[3])?;
    let images = two_lists(alloc, &[3], &[0])?;
    let blank = vec![in alloc; None]?;
    let cells = vec![in alloc; blank]?;
    let next = Vec::from_slice(alloc, &[4, 4])?;
    Ok(Added {
        names,
        rows: images,
        cells,
        next,
    })
}

// The cells in which vertex 1 has no weight.
fn lost_weight(alloc: Global) -> Result<Vec<Vec<(u32, Option<Atom>)>>, OutOfMemory>
    ensures { IfOk result (λ lists. map (λ list. list.items) lists.items ≡ ((1, None) ∷ []) ∷ []) }
{
    let blank = vec![in alloc; (1, None)]?;
    Ok(vec![in alloc; blank]?)
}

// The change that adds vertex 3 and edge 3, leads edge 2 to vertex 3 and takes the weight from vertex 1.
fn one_more(alloc: Global) -> Result<Change, OutOfMemory>
    ensures { IfOk result (λ change. change ≡ with_more) }
{
    Ok(Change {
        removed: two_lists(alloc, &[], &[])?,
        added: more_parts(alloc)?,
        rows: moved_row(alloc)?,
        cells: lost_weight(alloc)?,
    })
}

// Whether the vertex has a weight.
fn is_weighed<L: Ledger>(columns: &Columns, name: u32, steps: &mut Steps<L>) -> bool
    requires known { 0 < length columns.now.signature.attributes }
    requires name { Has (instance_of_columns columns.now) (holder_of columns.now.signature 0) name }
    ensures { IsTrue result → (instance_of_columns columns.now).cell 0 name ≢ None }
{
    columns.cell(WEIGHT, name, steps).is_some()
}

// Whether the columns are of a weighted graph that the change fits.
fn may_gain<L: Ledger>(schema: &Schema, columns: &Columns, steps: &mut Steps<L>) -> bool
    requires { columns.now.signature ≡ signature_of schema.now }
    ensures { IsTrue result → FitsColumns columns.now with_more }
{
    columns.known();
    if schema.objects() != 2 || schema.arrows() != 2 || schema.attributes() != 1 {
        return false;
    }
    if schema.equation_list().len() != 0 || columns.holder(WEIGHT).0 != 0 {
        return false;
    }
    if columns.source(SRC).0 != 1 || columns.source(TGT).0 != 1 {
        return false;
    }
    if columns.target(SRC).0 != 0 || columns.target(TGT).0 != 0 {
        return false;
    }
    if columns.next_name(V) != 3 || columns.next_name(E) != 3 {
        return false;
    }
    if !columns.is_live(E, 2) || !columns.is_live(V, 0) || !columns.is_live(V, 1) {
        return false;
    }
    is_weighed(columns, 1, steps)
}

// Where the arrow leads from the name, where its source has this.
fn value_of<P: Probe, L: Ledger>(
    probe: &P,
    source: ObjectId,
    arrow: ArrowId,
    name: u32,
    steps: &mut Steps<L>,
) -> Option<u32>
    requires source { source.0 < (P.signature probe.now).objects }
    requires arrow { arrow.0 < length (P.signature probe.now).arrows }
    requires leaves { source_of (P.signature probe.now) arrow.0 ≡ source.0 }
{
    if !probe.is_live(source, name) {
        return None;
    }
    Some(probe.value(arrow, name, steps))
}

// Whether the vertex is there without a weight.
fn is_blank<P: Probe, L: Ledger>(
    probe: &P,
    holder: ObjectId,
    name: u32,
    steps: &mut Steps<L>,
) -> bool
    requires object { holder.0 < (P.signature probe.now).objects }
    requires attribute { 0 < length (P.signature probe.now).attributes }
    requires holder { holder_of (P.signature probe.now) 0 ≡ holder.0 }
{
    if !probe.is_live(holder, name) {
        return false;
    }
    probe.cell(WEIGHT, name, steps).is_none()
}

// Whether what the change will leave is read: edge 3 leaves vertex 3, edge 2 leads to vertex 3, edge 0 to vertex 1 as
// before, and vertices 1 and 3 have no weight.
fn is_read<L: Ledger>(schema: &Schema, columns: &Columns, change: &Change, blank: Blank) -> bool
    requires name { blank.name ≡ L.name }
    requires parts { blank.parts ≡ L.parts }
    requires some { 0 < L.parts }
    requires over { columns.now.signature ≡ signature_of schema.now }
    requires change { change.now ≡ with_more }
{
    let mut steps: Steps<L> = Steps::new(blank);
    if schema.arrows() != 2 || schema.attributes() != 1 || !may_gain(schema, columns, &mut steps) {
        return false;
    }
    let source = columns.source(SRC);
    let holder = columns.holder(WEIGHT);
    let after = After::new(columns, change);
    value_of(&after, source, SRC, 3, &mut steps) == Some(3)
        && value_of(&after, columns.source(TGT), TGT, 2, &mut steps) == Some(3)
        && value_of(&after, columns.source(TGT), TGT, 0, &mut steps) == Some(1)
        && is_blank(&after, holder, 1, &mut steps)
        && is_blank(&after, holder, 3, &mut steps)
        && !after.is_live(holder, 4)
}

// Whether these are the names of vertices and of edges.
fn are(changed: &Changed, vertices: &[u32], edges: &[u32]) -> bool
    requires { length changed.now ≡ 2 }
{
    changed.names(V) == vertices && changed.names(E) == edges
}

// Whether vertex 1 and edge 2 are touched, and vertex 3 and edge 3 added.
fn is_told<L: Ledger>(
    alloc: Global,
    schema: &Schema,
    columns: &Columns,
    change: &Change,
    blank: Blank,
) -> Result<bool, OutOfMemory>
    requires name { blank.name ≡ L.name }
    requires parts { blank.parts ≡ L.parts }
    requires some { 0 < L.parts }
    requires over { columns.now.signature ≡ signature_of schema.now }
    requires change { change.now ≡ with_more }
{
    let mut steps: Steps<L> = Steps::new(blank);
    if schema.objects() != 2 || !may_gain(schema, columns, &mut steps) {
        return Ok(false);
    }
    let delta = Delta::of(alloc, columns, change)?;
    Ok(
        are(delta.removed(), &[], &[])
            && are(delta.added(), &[3], &[3])
            && are(delta.touched(), &[1], &[2])
            && are(delta.before(), &[1], &[2])
            && are(delta.after(), &[1, 3], &[2, 3]),
    )
}

#[test]
fn a_change_is_read_and_told_before_it_is_carried_out(rt: HostRuntime) -> Result<(), Fail> {
    let schema = weighted(rt.alloc())?;
    let columns = columns_of(rt.alloc(), &schema, weighted_edges(rt.alloc())?)?;
    let change = one_more(rt.alloc())?;
    assert!(rt; is_read::<Brand>(&schema, &columns, &change, Blank::new(1)));
    assert!(rt; is_told::<Brand>(rt.alloc(), &schema, &columns, &change, Blank::new(1))?);
    Ok(())
}
