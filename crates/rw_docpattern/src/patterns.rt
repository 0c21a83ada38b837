//! Patterns with entries that want constants and variables, and patterns without entries.

ghost use Rattle.std.specs.Prelude.{◌≡◌, ◌≤◌, [], IfOk, length};
ghost use Rattle.serde_json.specs.View.{view};
ghost use Rattle.rw_schema.specs.Presentation.{signature_of};
ghost use Rattle.rw_pattern.specs.PatternFaults.{IsPatternOver};
ghost use Rattle.rw_doc.specs.Gives.{Gives};
ghost use Rattle.rw_docpattern.specs.Patterns as spec;
ghost use Rattle.rw_docpattern.specs.Reads.{pattern_read};

use crate::build::with_entries;
use crate::draft::read_draft;
use rw_doc::{Piece, ReadDocEnd};
use rw_pattern::Pattern;
use rw_schema::{Kind, NameIndex, Schema};
use serde_json::Value;
use std::alloc::Global;

/// A pattern, and the names and the kinds of its variables, by their numbers.
#[derive(Drop)]
pub struct PatternRead {
    pub pattern: Pattern,
    pub variables: NameIndex,
    pub kinds: Vec<Kind>,
}

/// A pattern without entries on cells.
pub fn read_bare_pattern(
    alloc: Global,
    schema: &Schema,
    piece: Piece,
    value: &Value,
) -> Result<Pattern, ReadDocEnd>
    ensures gives { Gives (λ pattern. pattern) result (spec.read_bare_pattern schema.now piece (view value.now)) }
    ensures over { IfOk result (IsPatternOver (signature_of schema.now) []) }
    ensures free { IfOk result (λ pattern. pattern.cells ≡ []) }
{
    let draft = read_draft(alloc, schema, piece, &["parts", "rows"], value)?;
    Ok(draft.bare)
}

/// A pattern whose entries want constants and variables, which are numbered by their first places.
pub fn read_pattern(
    alloc: Global,
    schema: &Schema,
    piece: Piece,
    value: &Value,
) -> Result<PatternRead, ReadDocEnd>
    ensures gives { Gives pattern_read result (spec.read_pattern schema.now piece (view value.now)) }
    ensures over { IfOk result (λ read. IsPatternOver (signature_of schema.now) read.kinds.items read.pattern) }
    ensures few { IfOk result (λ read. length read.variables ≤ 256) }
{
    let draft = read_draft(alloc, schema, piece, &["cells", "parts", "rows"], value)?;
    with_entries(alloc, schema, piece, draft)
}
