//! A caller of the library: lists the walks of two edges in a graph, and the pairs of a product of two graphs.
//! docs/LIBRARY.md goes through it.
#![tactic(auto)]

ghost use Rattle.std.specs.Prelude.{◌≡◌, ◌<◌, [], ◌∷◌, IfOk, length, replicate};
ghost use Rattle.rw_schema.specs.Presentation.{signature_of};
ghost use Rattle.graph_example.specs.Graphs.{graphs};

mod agreeing;
mod graphs;
mod walks;

use agreeing::agreeing_pairs;
use graphs::{EDGES, VERTICES, graph};
use rw_columns::Columns;
use rw_limits::PullbackResult;
use rw_pattern::Tuple;
use rw_schema::{ObjectId, PartMap, Schema};
use rw_steps::Steps;
use std::alloc::Global;
use std::marker::Brand;
use std::sync::ledger::{Blank, Ledger};
use walks::walks;

fn main(rt: HostRuntime) -> anyhow::Result<()> {
    let alloc = rt.alloc();
    let schema = graphs::schema(alloc)?;
    print_walks(&rt, alloc, &schema)?;
    print_product(&rt, alloc, &schema)
}

/// Prints the walks of two edges in a triangle with a tail.
fn print_walks(rt: &impl Print, alloc: Global, schema: &Schema) -> anyhow::Result<()>
    requires { signature_of schema.now ≡ graphs }
{
    for walk in &triangle_walks(alloc, schema)? {
        println!(rt; "walk {:?}", walk.names())?;
    }
    Ok(())
}

/// The walks of two edges in a triangle with a tail.
fn triangle_walks(alloc: Global, schema: &Schema) -> anyhow::Result<Vec<Tuple>>
    requires { signature_of schema.now ≡ graphs }
{
    counted_walks::<Brand>(alloc, schema, Blank::new(1))
}

/// The walks, with a counter of steps that nobody reads.
fn counted_walks<L: Ledger>(
    alloc: Global,
    schema: &Schema,
    blank: Blank,
) -> anyhow::Result<Vec<Tuple>>
    requires schema { signature_of schema.now ≡ graphs }
    requires name { blank.name ≡ L.name }
    requires parts { blank.parts ≡ L.parts }
    requires some { 0 < L.parts }
{
    let mut steps: Steps<L> = Steps::new(blank);
    let triangle = graph(alloc, schema, 4, &[(0, 1), (1, 2), (2, 0), (2, 3)])?;
    let columns = Columns::from_rows(alloc, schema, triangle.rows())?;
    walks(alloc, schema, &columns, &mut steps)
}

/// Prints the product of an edge and a cycle of two edges.
fn print_product(rt: &impl Print, alloc: Global, schema: &Schema) -> anyhow::Result<()>
    requires { signature_of schema.now ≡ graphs }
{
    let pairs = edge_with_cycle(alloc, schema)?;
    print_pairs(rt, "vertices", &pairs, VERTICES)?;
    print_pairs(rt, "edges", &pairs, EDGES)
}

/// The product of an edge and a cycle of two edges: their pullback over one vertex with a loop.
fn edge_with_cycle(alloc: Global, schema: &Schema) -> anyhow::Result<PullbackResult>
    requires { signature_of schema.now ≡ graphs }
    ensures left { IfOk result (λ pairs. length pairs.left ≡ 2) }
    ensures right { IfOk result (λ pairs. length pairs.right ≡ 2) }
{
    let edge = graph(alloc, schema, 2, &[(0, 1)])?;
    let cycle = graph(alloc, schema, 2, &[(0, 1), (1, 0)])?;
    let base = graph(alloc, schema, 1, &[(0, 0)])?;
    let f = to_one(alloc, 2, 1)?;
    let g = to_one(alloc, 2, 2)?;
    agreeing_pairs(alloc, schema, &edge, &cycle, &base, &f, &g)
}

/// The map that sends each of so many vertices and edges to the part 0.
fn to_one(alloc: Global, vertices: usize, edges: usize) -> anyhow::Result<PartMap>
    ensures { IfOk result (λ map. map ≡ replicate vertices 0 ∷ replicate edges 0 ∷ []) }
{
    let of_vertices = vec![in alloc; 0; vertices]?;
    let of_edges = vec![in alloc; 0; edges]?;
    let images = Vec::from_array(alloc, [of_vertices, of_edges])?;
    Ok(PartMap::from_lists(images))
}

/// Prints the left parts and the right parts of the object's pairs.
fn print_pairs(
    rt: &impl Print,
    name: &str,
    pairs: &PullbackResult,
    object: ObjectId,
) -> anyhow::Result<()>
    requires left { object.0 < length pairs.now.left }
    requires right { object.0 < length pairs.now.right }
{
    let left = pairs.left.images(object);
    let right = pairs.right.images(object);
    println!(rt; "{name} {left:?} {right:?}")?;
    Ok(())
}
