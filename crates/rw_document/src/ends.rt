//! The span and the cospan of a document.

ghost use Rattle.std.specs.Prelude.{IfOk, IfSome, option_map};
ghost use Rattle.serde_json.specs.View.{view};
ghost use Rattle.rw_schema.specs.Presentation.{signature_of};
ghost use Rattle.rw_doc.specs.Gives.{Gives};
ghost use Rattle.rw_docspan.specs.Spans.{IsCospanOver, IsSpanOver};
ghost use Rattle.rw_docspan.specs.Views.{cospan_lists, span_lists};
ghost use Rattle.rw_document.specs.Documents as spec;
ghost use Rattle.rw_document.specs.Views.{ends_read};

use rw_doc::ReadDocEnd;
use rw_docspan::{Cospan, Span, read_cospan, read_span};
use rw_schema::Schema;
use serde_json::Value;
use std::alloc::Global;

/// The span and the cospan of a document, where they are written.
#[derive(Drop)]
pub(crate) struct Ends {
    pub(crate) span: Option<Span>,
    pub(crate) cospan: Option<Cospan>,
}

/// The span that is written, or none.
fn span_or_none(
    alloc: Global,
    schema: &Schema,
    value: Option<&Value>,
) -> Result<Option<Span>, ReadDocEnd>
    ensures gives { Gives (option_map span_lists) result (spec.span_or_none (signature_of schema.now) (option_map (λ value. view value.now) value.entry)) }
    ensures over { IfOk result (λ span. IfSome (option_map span_lists span) (IsSpanOver (signature_of schema.now))) }
{
    match value {
        Some(value) => Ok(Some(read_span(alloc, schema, value)?)),
        None => Ok(None),
    }
}

/// The cospan that is written, or none.
fn cospan_or_none(
    alloc: Global,
    schema: &Schema,
    value: Option<&Value>,
) -> Result<Option<Cospan>, ReadDocEnd>
    ensures gives { Gives (option_map cospan_lists) result (spec.cospan_or_none (signature_of schema.now) (option_map (λ value. view value.now) value.entry)) }
    ensures over { IfOk result (λ cospan. IfSome (option_map cospan_lists cospan) (IsCospanOver (signature_of schema.now))) }
{
    match value {
        Some(value) => Ok(Some(read_cospan(alloc, schema, value)?)),
        None => Ok(None),
    }
}

/// The span and the cospan that are written.
pub(crate) fn read_ends(alloc: Global, schema: &Schema, value: &Value) -> Result<Ends, ReadDocEnd>
    ensures gives { Gives ends_read result (spec.read_ends (signature_of schema.now) (view value.now)) }
    ensures span { IfOk result (λ ends. IfSome (option_map span_lists ends.span) (IsSpanOver (signature_of schema.now))) }
    ensures cospan { IfOk result (λ ends. IfSome (option_map cospan_lists ends.cospan) (IsCospanOver (signature_of schema.now))) }
{
    let span = span_or_none(alloc, schema, value.get("span"))?;
    let cospan = cospan_or_none(alloc, schema, value.get("cospan"))?;
    Ok(Ends { span, cospan })
}
