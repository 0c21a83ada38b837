//! Right patterns, whose entries set cells to the values of terms.

ghost use Rattle.std.specs.Prelude.{◌≡◌, ◌<◌, ◌≤◌, ◌^◌, [], All, IfOk, length};
ghost use Rattle.serde_json.specs.View.{view};
ghost use Rattle.rw_schema.specs.Presentation.{signature_of};
ghost use Rattle.rw_pattern.specs.PatternFaults.{IsPatternOver};
ghost use Rattle.rw_terms.specs.OpEntries.{entries};
ghost use Rattle.rw_doc.specs.Gives.{Gives};
ghost use Rattle.rw_docpattern.specs.Drafts.{IsSound, draft_seen};
ghost use Rattle.rw_docpattern.specs.Rights.{right_with};
ghost use Rattle.rw_docpattern.specs.Sets as spec;
ghost use Rattle.rw_docpattern.specs.Reads.{pattern_read, right_read};

use crate::PatternRead;
use crate::draft::{Draft, read_draft};
use crate::fits::are_sets;
use crate::numbered::sets_of;
use rw_doc::{Piece, ReadDocEnd};
use rw_pattern::Pattern;
use rw_rule::SetCell;
use rw_schema::Schema;
use rw_terms::OpTable;
use serde_json::Value;
use std::alloc::Global;

/// A pattern without entries, and the cells of it that are set.
#[derive(Drop)]
pub struct RightRead {
    pub pattern: Pattern,
    pub sets: Vec<SetCell>,
}

/// The pattern of the draft, and its entries as sets.
fn with_sets(
    alloc: Global,
    schema: &Schema,
    ops: &OpTable,
    piece: Piece,
    left: &PatternRead,
    draft: Draft,
) -> Result<RightRead, ReadDocEnd>
    requires operations { length (entries ops.now) < 2 ^ 32 }
    requires variables { length left.now.variables ≤ 256 }
    requires sound { IsSound schema.now (draft_seen draft) }
    ensures gives { Gives right_read result
        (right_with schema.now (entries ops.now) piece (pattern_read left.now) draft.bare draft.entries.items) }
    ensures over { IfOk result (λ read. IsPatternOver (signature_of schema.now) [] read.pattern) }
    ensures free { IfOk result (λ read. read.pattern.cells ≡ []) }
    ensures attributes { IfOk result (λ read. All (λ set. set.attr.0 < length schema.now.attributes) read.sets.items) }
    ensures few { IfOk result (λ read. length read.sets.items ≤ 256) }
{
    let Draft { bare, entries } = draft;
    let sets = sets_of(alloc, ops, &left.variables, entries)?;
    if !are_sets(schema, ops, left, sets.as_slice()) {
        return Err(piece.refused(14));
    }
    Ok(RightRead {
        pattern: bare,
        sets,
    })
}

/// The right pattern of a rule with this left pattern. Its terms have the left pattern's variables, and operations of the
/// table.
pub fn read_right(
    alloc: Global,
    schema: &Schema,
    ops: &OpTable,
    piece: Piece,
    left: &PatternRead,
    value: &Value,
) -> Result<RightRead, ReadDocEnd>
    requires operations { length (entries ops.now) < 2 ^ 32 }
    requires variables { length left.now.variables ≤ 256 }
    ensures gives { Gives right_read result (spec.read_right schema.now (entries ops.now) piece (pattern_read left.now) (view value.now)) }
    ensures over { IfOk result (λ read. IsPatternOver (signature_of schema.now) [] read.pattern) }
    ensures free { IfOk result (λ read. read.pattern.cells ≡ []) }
    ensures attributes { IfOk result (λ read. All (λ set. set.attr.0 < length schema.now.attributes) read.sets.items) }
    ensures few { IfOk result (λ read. length read.sets.items ≤ 256) }
{
    let draft = read_draft(alloc, schema, piece, &["cells", "parts", "rows"], value)?;
    with_sets(alloc, schema, ops, piece, left, draft)
}
