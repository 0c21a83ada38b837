//! The answers about the span and the cospan of a document.

ghost use Rattle.std.specs.Prelude.{◌≡◌, IfOk, IfSome, Some, option_map};
ghost use Rattle.rw_schema.specs.Presentation.{signature_of};
ghost use Rattle.rw_doc.specs.Faults.{fault_of};
ghost use Rattle.rw_docspan.specs.Spans.{IsSpanOver, IsCospanOver};
ghost use Rattle.rw_docspan.specs.Views.{span_lists, cospan_lists};
ghost use Rattle.rw_app.specs.AnswerText.{done_with};
ghost use Rattle.rw_app.specs.AnswerTexts.{text_of_answer};
ghost use Rattle.rw_app.specs.Limits.{IsPushoutAnswer, IsPullbackAnswer};

use crate::Status;
use crate::answer::{Answer, refusal};
use rw_doc::DocFault;
use rw_docspan::{Cospan, Span};
use rw_document::Document;
use rw_limits::{GlueFault, PullEnd, pullback, pushout};
use rw_print::{clash_line, large_line, limit_line};
use rw_schema::{OutOfMemory, Schema, Section};
use std::alloc::Global;

/// The pushout of the document's span, or its first clash; without a span it is a fault.
pub(crate) fn push_out(alloc: Global, document: &Document) -> Result<Answer, OutOfMemory>
    requires { IfSome (option_map span_lists document.now.span) (IsSpanOver (signature_of document.now.schema)) }
    ensures { IfOk result (λ answer. IsPushoutAnswer document.now.schema (option_map span_lists document.now.span) (text_of_answer answer)) }
{
    match &document.span {
        Some(span) => push_span(alloc, &document.schema, span),
        None => refusal(alloc, missing(Section::Span)),
    }
}

/// The fault of a command whose section is not there.
fn missing(section: Section) -> DocFault
    ensures { result ≡ fault_of 2 section }
{
    DocFault {
        code: 2,
        section,
        first: 0,
        second: 0,
        third: 0,
    }
}

/// The pushout of the span, or its first clash.
fn push_span(alloc: Global, schema: &Schema, span: &Span) -> Result<Answer, OutOfMemory>
    requires { IsSpanOver (signature_of schema.now) (span_lists span.now) }
    ensures { IfOk result (λ answer. IsPushoutAnswer schema.now (Some (span_lists span.now)) (text_of_answer answer)) }
{
    let Span {
        apex,
        left,
        right,
        to_left,
        to_right,
    } = span;
    match pushout(alloc, schema, apex, left, right, to_left, to_right) {
        Ok(result) => {
            let text = limit_line(alloc, schema, &result.table, &result.left, &result.right)?;
            Ok(done(text))
        }
        Err(
            GlueFault::Clash {
                object,
                part,
                attr,
                first,
                second,
            },
        ) => {
            prove!(schema.attr(attr).object.0 == object.0);
            let text = clash_line(alloc, schema, object, part, attr, &first, &second)?;
            Ok(done(text))
        }
        Err(GlueFault::OutOfMemory) => Err(OutOfMemory),
    }
}

/// The pullback of the document's cospan, or that it is too large; without a cospan it is a fault.
pub(crate) fn pull_back(alloc: Global, document: &Document) -> Result<Answer, OutOfMemory>
    requires { IfSome (option_map cospan_lists document.now.cospan) (IsCospanOver (signature_of document.now.schema)) }
    ensures { IfOk result (λ answer. IsPullbackAnswer document.now.schema (option_map cospan_lists document.now.cospan) (text_of_answer answer)) }
{
    match &document.cospan {
        Some(cospan) => pull_cospan(alloc, &document.schema, cospan),
        None => refusal(alloc, missing(Section::Cospan)),
    }
}

/// The pullback of the cospan, or that it is too large.
fn pull_cospan(alloc: Global, schema: &Schema, cospan: &Cospan) -> Result<Answer, OutOfMemory>
    requires { IsCospanOver (signature_of schema.now) (cospan_lists cospan.now) }
    ensures { IfOk result (λ answer. IsPullbackAnswer schema.now (Some (cospan_lists cospan.now)) (text_of_answer answer)) }
{
    let Cospan {
        left,
        right,
        base,
        left_map,
        right_map,
    } = cospan;
    match pullback(alloc, schema, left, right, base, left_map, right_map) {
        Ok(result) => {
            let text = limit_line(alloc, schema, &result.table, &result.left, &result.right)?;
            Ok(done(text))
        }
        Err(PullEnd::TooLarge { object }) => {
            let text = large_line(alloc, schema, object)?;
            Ok(done(text))
        }
        Err(PullEnd::OutOfMemory) => Err(OutOfMemory),
    }
}

/// The answer of a command that is done.
fn done(text: Vec<u8>) -> Answer
    ensures { text_of_answer result ≡ done_with text.items }
{
    Answer {
        status: Status::Done,
        text,
    }
}
