//! Faults of documents.

use rw_schema::Section;

/// The first fault of a document: a code, the section where it lies, and its place there. Numbers of the place that
/// the section does not name are 0. docs/FORMAT.md lists the codes.
#[derive(Clone, Copy, Debug, PartialEq, Eq)]
pub struct DocFault {
    pub code: u8,
    pub section: Section,
    pub first: u32,
    pub second: u32,
    pub third: u32,
}
