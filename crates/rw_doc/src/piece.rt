//! The pieces of a rule, a watch, a span or a cospan.

ghost use Rattle.std.specs.Prelude.{◌≡◌};
ghost use Rattle.rw_doc.specs.declared.end.ReadDocEnd.TheVariants.{Refused};
ghost use Rattle.rw_doc.specs.Pieces.{fault_in};

use crate::{DocFault, ReadDocEnd};
use rw_schema::Section;

/// A piece of a section: two numbers tell its place. The faults of a piece have this one place, so the least code comes
/// first.
#[derive(Clone, Copy, Debug, PartialEq, Eq)]
pub struct Piece {
    pub section: Section,
    pub first: u32,
    pub second: u32,
}

impl Piece {
    /// The end of a reading with a fault of the piece.
    pub fn refused(self, code: u8) -> ReadDocEnd
        ensures { result ≡ Refused (fault_in self code) }
    {
        ReadDocEnd::Refused(DocFault {
            code,
            section: self.section,
            first: self.first,
            second: self.second,
            third: 0,
        })
    }
}
