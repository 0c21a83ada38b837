//! Patterns with entries, of drafts.

ghost use Rattle.std.specs.Prelude.{◌≡◌, ◌<◌, ◌≤◌, All, IfOk, length, map};
ghost use Rattle.rw_schema.specs.Presentation.{signature_of};
ghost use Rattle.rw_pattern.specs.PatternFaults.{pattern_fault, variable_fault, IsPatternOver};
ghost use Rattle.rw_pattern.specs.PatternLists.{holders_in};
ghost use Rattle.rw_doc.specs.Gives.{Gives};
ghost use Rattle.rw_docpattern.specs.Drafts as spec;
ghost use Rattle.rw_docpattern.specs.Drafts.{IsSound, draft_seen};
ghost use Rattle.rw_docpattern.specs.Parts.{lists_of_parts};
ghost use Rattle.rw_docpattern.specs.Reads.{pattern_read};

use crate::PatternRead;
use crate::draft::Draft;
use crate::variables::{Variables, variables_of};
use crate::wants::cells_of;
use rw_doc::{Piece, ReadDocEnd};
use rw_pattern::{Pattern, PatternCell, PatternFault, PatternParts};
use rw_schema::{ArrowId, Kind, OutOfMemory, Schema};
use std::alloc::Global;

/// The rows of the pattern, in memory of their own.
fn rows_of(alloc: Global, schema: &Schema, bare: &Pattern) -> Result<Vec<Vec<u32>>, OutOfMemory>
    requires { length bare.now.rows ≡ length schema.now.arrows }
    ensures { IfOk result (λ rows. map (λ row. row.items) rows.items ≡ bare.now.rows) }
{
    let mut rows = Vec::new(alloc);
    for arrow in 0..schema.arrows() {
        let row = bare.row(ArrowId(arrow as u16));
        rows.push(row.to_vec(alloc)?)?;
    }
    Ok(rows)
}

/// The lists of the pattern, with these entries.
pub fn parts_with(
    alloc: Global,
    schema: &Schema,
    bare: &Pattern,
    cells: Vec<PatternCell>,
) -> Result<PatternParts, OutOfMemory>
    requires rows { length bare.now.rows ≡ length schema.now.arrows }
    requires holders { bare.now.holders ≡ holders_in (signature_of schema.now) }
    ensures { IfOk result (λ parts. lists_of_parts (signature_of schema.now) parts ≡ spec.with_cells bare.now cells.items) }
{
    let sizes = bare.sizes().to_vec(alloc)?;
    let rows = rows_of(alloc, schema, bare)?;
    Ok(PatternParts { sizes, rows, cells })
}

/// The pattern of the parts with variables of these kinds, or the fault that a variable is of two kinds.
pub fn pattern_of(
    alloc: Global,
    schema: &Schema,
    piece: Piece,
    parts: PatternParts,
    kinds: &[Kind],
) -> Result<Pattern, ReadDocEnd>
    requires attributes { All (λ cell. cell.attr.0 < length schema.now.attributes) parts.cells.items }
    requires variables { pattern_fault (signature_of schema.now) kinds.now (lists_of_parts (signature_of schema.now) parts)
        ≡ variable_fault (signature_of schema.now) kinds.now (lists_of_parts (signature_of schema.now) parts) }
    ensures gives { Gives (λ pattern. pattern) result (spec.pattern_of (signature_of schema.now) piece kinds.now (lists_of_parts (signature_of schema.now) parts)) }
    ensures over { IfOk result (IsPatternOver (signature_of schema.now) kinds.now) }
{
    match Pattern::build(alloc, schema, parts, kinds) {
        Ok(pattern) => Ok(pattern),
        Err(PatternFault::OutOfMemory) => Err(ReadDocEnd::OutOfMemory),
        Err(_) => Err(piece.refused(14)),
    }
}

/// The pattern of the draft with its entries.
pub(crate) fn with_entries(
    alloc: Global,
    schema: &Schema,
    piece: Piece,
    draft: Draft,
) -> Result<PatternRead, ReadDocEnd>
    requires { IsSound schema.now (draft_seen draft) }
    ensures gives { Gives pattern_read result (spec.pattern_with schema.now piece draft.bare draft.entries.items) }
    ensures over { IfOk result (λ read. IsPatternOver (signature_of schema.now) read.kinds.items read.pattern) }
    ensures few { IfOk result (λ read. length read.variables ≤ 256) }
{
    let Draft { bare, entries } = draft;
    let Variables { names, kinds } = variables_of(alloc, schema, entries.as_slice())?;
    let Some(cells) = cells_of(alloc, &names, entries)? else {
        return Err(piece.refused(14));
    };
    let parts = parts_with(alloc, schema, &bare, cells)?;
    let pattern = pattern_of(alloc, schema, piece, parts, kinds.as_slice())?;
    Ok(PatternRead {
        pattern,
        variables: names,
        kinds,
    })
}
