//! The lists of a pattern without entries.

ghost use Rattle.std.specs.Prelude.{map};
ghost use Rattle.rw_schema.specs.Presentation.{signature_of};
ghost use Rattle.rw_docpattern.specs.Bare.{FindsBare, lists_of};

use rw_doc::{Piece, ReadDocEnd};
use rw_pattern::{Pattern, PatternFault, PatternParts};
use rw_schema::Schema;
use std::alloc::Global;

/// Which conditions the lists of a pattern without entries meet. Each is looked at where those before it hold.
#[derive(Drop)]
pub(crate) struct Bare {
    /// Whether there are few enough parts.
    pub(crate) few: bool,
    /// Whether each image is there.
    pub(crate) in_range: bool,
    /// The pattern, where the equations hold.
    pub(crate) pattern: Option<Pattern>,
}

/// What the lists are found to be, where their lengths are right.
pub(crate) fn bare_of(
    alloc: Global,
    schema: &Schema,
    piece: Piece,
    sizes: Vec<u32>,
    rows: Vec<Vec<u32>>,
) -> Result<Bare, ReadDocEnd>
    ensures { FindsBare (signature_of schema.now) piece (lists_of (signature_of schema.now) sizes.items (map (λ row. row.items) rows.items)) result }
{
    let cells = Vec::new(alloc);
    let parts = PatternParts { sizes, rows, cells };
    match Pattern::build(alloc, schema, parts, &[]) {
        Ok(pattern) => Ok(Bare {
            few: true,
            in_range: true,
            pattern: Some(pattern),
        }),
        Err(PatternFault::OutOfMemory) => Err(ReadDocEnd::OutOfMemory),
        Err(PatternFault::Shape) => Err(piece.refused(2)),
        Err(PatternFault::Limit) => Ok(Bare {
            few: false,
            in_range: false,
            pattern: None,
        }),
        Err(PatternFault::Range) => Ok(Bare {
            few: true,
            in_range: false,
            pattern: None,
        }),
        Err(_) => Ok(Bare {
            few: true,
            in_range: true,
            pattern: None,
        }),
    }
}
