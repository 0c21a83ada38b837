//! Graphs, as instances of their schema.

ghost use Rattle.std.specs.Prelude.{◌≡◌, ◌<◌, ◌^◌, IfOk, length, map};
ghost use Rattle.std.specs.List.{range_with_len};
ghost use Rattle.rw_schema.specs.Presentation.{ends_of_arrow, signature_of};
ghost use Rattle.graph_example.specs.Graphs.{edge_to_vertex, graph_lists, graphs};

use rw_schema::{ArrowDef, ObjectId, Rows, Schema, SchemaParts, Text};
use rw_table::Table;
use std::alloc::Global;

/// The object of the vertices.
pub const VERTICES: ObjectId = ObjectId(0);

/// The object of the edges.
pub const EDGES: ObjectId = ObjectId(1);

/// The schema of graphs: each edge has a source and a target.
pub fn schema(alloc: Global) -> anyhow::Result<Schema>
    ensures { IfOk result (λ schema. signature_of schema ≡ graphs) }
{
    let source = ends(alloc, "source")?;
    let target = ends(alloc, "target")?;
    let parts = SchemaParts {
        objects: Vec::from_array(alloc, [Text::of(alloc, "V")?, Text::of(alloc, "E")?])?,
        arrows: Vec::from_array(alloc, [source, target])?,
        attributes: Vec::new(alloc),
        equations: Vec::new(alloc),
    };
    let schema = Schema::build(alloc, parts)?;
    Ok(schema)
}

/// An arrow from the edges to the vertices.
fn ends(alloc: Global, name: &str) -> anyhow::Result<ArrowDef>
    ensures { IfOk result (λ arrow. ends_of_arrow arrow ≡ edge_to_vertex) }
{
    let name = Text::of(alloc, name)?;
    Ok(ArrowDef {
        name,
        source: EDGES,
        target: VERTICES,
    })
}

/// The graph with so many vertices, and an edge for each pair, from the first to the second.
pub fn graph(
    alloc: Global,
    schema: &Schema,
    vertices: u32,
    edges: &[(u32, u32)],
) -> anyhow::Result<Table>
    requires { length edges.now < 2 ^ 32 }
    ensures { IfOk result (λ table. table ≡ record { signature = signature_of schema.now; rows = graph_lists vertices edges.now }) }
{
    let count = edges.len() as u32;
    let sources = sources_of(alloc, edges)?;
    let targets = targets_of(alloc, edges)?;
    let names = Vec::from_array(alloc, [below(alloc, vertices)?, below(alloc, count)?])?;
    let rows = Vec::from_array(alloc, [sources, targets])?;
    let next = Vec::from_array(alloc, [vertices, count])?;
    let graph = Table::new(
        alloc,
        schema,
        Rows::from_lists(names, rows, Vec::new(alloc), next),
    )?;
    Ok(graph)
}

/// The vertices that the edges leave.
fn sources_of(alloc: Global, edges: &[(u32, u32)]) -> anyhow::Result<Vec<u32>>
    ensures { IfOk result (λ sources. sources.items ≡ map (λ ends. ends.0) edges.now) }
{
    let sources = edges.iter().map(|ends| ends.0).collect(alloc)?;
    Ok(sources)
}

/// The vertices that the edges enter.
fn targets_of(alloc: Global, edges: &[(u32, u32)]) -> anyhow::Result<Vec<u32>>
    ensures { IfOk result (λ targets. targets.items ≡ map (λ ends. ends.1) edges.now) }
{
    let targets = edges.iter().map(|ends| ends.1).collect(alloc)?;
    Ok(targets)
}

/// The names from 0 up to the bound, which is none of them.
fn below(alloc: Global, bound: u32) -> anyhow::Result<Vec<u32>>
    ensures { IfOk result (λ names. names.items ≡ range_with_len 0 bound) }
{
    let names = (0..bound).collect(alloc)?;
    Ok(names)
}
