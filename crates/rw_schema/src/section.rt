//! The sections of a document: where a fault lies.

ghost use Rattle.std.specs.Prelude.{◌≡◌};
ghost use Rattle.rw_schema.specs.SectionName.{name_of_section};

/// A section of a document. Sections are read in this order.
#[derive(Clone, Copy, Debug, PartialEq, Eq)]
pub enum Section {
    Whole,
    Schema,
    Objects,
    Arrows,
    Attributes,
    Equations,
    Instance,
    Parts,
    Rows,
    Cells,
    Equation,
    Rules,
    Watches,
    Nested,
    Boxes,
    Span,
    Cospan,
    Observers,
}

impl Section {
    /// The name that a fault line prints.
    pub fn name(&self) -> &str
        ensures { result.now ≡ name_of_section self.now }
    {
        match self {
            Section::Whole => "whole",
            Section::Schema => "schema",
            Section::Objects => "objects",
            Section::Arrows => "arrows",
            Section::Attributes => "attributes",
            Section::Equations => "equations",
            Section::Instance => "instance",
            Section::Parts => "parts",
            Section::Rows => "rows",
            Section::Cells => "cells",
            Section::Equation => "equation",
            Section::Rules => "rules",
            Section::Watches => "watches",
            Section::Nested => "nested",
            Section::Boxes => "boxes",
            Section::Span => "span",
            Section::Cospan => "cospan",
            Section::Observers => "observers",
        }
    }
}
