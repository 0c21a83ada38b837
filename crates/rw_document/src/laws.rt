//! The laws of documents: what the first fault is, and what the formats have in common.

ghost use Rattle.rw_document.specs.DocumentCodes.{FirstDocumentFault};
ghost use Rattle.rw_document.specs.Formats.{FormatsAgree};

/// A reading of a document gives a value where none of its sections has a fault, and else the fault of the first section
/// that has one: the bytes, the document's own keys and format, the schema, the instance, the rules, the watches, the
/// span, the cospan, and what is not built yet. The call does nothing: its contract is the law.
pub fn documents_tell_first()
    ensures { FirstDocumentFault }
{}

/// Where a document of format 1 has a model, the same value with format 2 has the same model. The call does nothing: its
/// contract is the law.
pub fn formats_agree()
    ensures { FormatsAgree }
{}
