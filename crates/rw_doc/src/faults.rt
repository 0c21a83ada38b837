//! Faults of documents, each at its place.

ghost use Rattle.std.specs.Prelude.{◌≡◌};
ghost use Rattle.rw_doc.specs.Faults as spec;
ghost use Rattle.rw_doc.specs.declared.end.ReadDocEnd.TheVariants.{Refused};

use crate::{DocFault, ReadDocEnd};
use rw_schema::Section;

/// The fault at a place of a section.
pub(crate) fn fault_at(code: u8, section: Section, first: u32, second: u32) -> DocFault
    ensures { result ≡ spec.fault_at code section first second }
{
    DocFault {
        code,
        section,
        first,
        second,
        third: 0,
    }
}

/// The fault of a section's list or object itself.
pub(crate) fn fault_of(code: u8, section: Section) -> DocFault
    ensures { result ≡ spec.fault_of code section }
{
    fault_at(code, section, 0, 0)
}

/// The end of a reading at such a fault.
pub(crate) fn refused_at(code: u8, section: Section, first: u32, second: u32) -> ReadDocEnd
    ensures { result ≡ Refused (spec.fault_at code section first second) }
{
    ReadDocEnd::Refused(fault_at(code, section, first, second))
}

/// The end of a reading at a section's list or object itself.
pub fn refused_of(code: u8, section: Section) -> ReadDocEnd
    ensures { result ≡ Refused (spec.fault_of code section) }
{
    ReadDocEnd::Refused(fault_of(code, section))
}
