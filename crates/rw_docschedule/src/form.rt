//! The form of boxes: what is written of them, before their numbers, names and wires are looked at.

ghost use Rattle.std.specs.Prelude.{◌≡◌, IfOk, codes, option_and_then, option_map};
ghost use Rattle.serde_json.specs.Find.{as_str, get};
ghost use Rattle.serde_json.specs.View.{view};
ghost use Rattle.rw_doc.specs.Json as json;
ghost use Rattle.rw_doc.specs.Numbers as numbers;
ghost use Rattle.rw_docschedule.specs.Boxes as spec;
ghost use Rattle.rw_docschedule.specs.Reads.{form_of_box};

use rw_doc::{as_number, as_numbers, count_of, has_only};
use rw_sched::{Cmp, Pick, Weights};
use rw_schema::{OutOfMemory, Text};
use serde_json::Value;
use std::alloc::Global;

/// The keys of a rule's box.
const RULE_KEYS: [&str; 4] = ["box", "pick", "rule", "to"];

/// The keys of a test.
const TEST_KEYS: [&str; 5] = ["box", "cmp", "count", "list", "to"];

/// The keys of a draw.
const DRAW_KEYS: [&str; 3] = ["box", "to", "weights"];

/// The keys of a loop.
const LOOP_KEYS: [&str; 3] = ["box", "count", "to"];

/// The keys of the other boxes.
const PLAIN_KEYS: [&str; 2] = ["box", "to"];

/// A box as it is written: rules and lists by their names.
#[derive(Drop)]
pub(crate) enum KindForm {
    Rule(Text, Pick),
    Test(Text, Cmp, u64),
    Draw(Weights),
    Loop(u32),
    Show,
    Exit,
    Fail,
}

/// A box as it is written, and the boxes that its wires lead to.
#[derive(Drop)]
pub(crate) struct BoxForm {
    pub(crate) kind: KindForm,
    pub(crate) to: Vec<u32>,
}

/// The text at a key.
fn text_at<'v>(key: &str, value: &'v Value) -> Option<&'v str>
    ensures { option_map (λ text. text.now) result ≡ spec.text_at key.now (view value.now) }
{
    value.get(key)?.as_str()
}

/// The numbers at a key.
fn numbers_at(alloc: Global, key: &str, value: &Value) -> Result<Option<Vec<u32>>, OutOfMemory>
    ensures { IfOk result (λ found. option_map (λ found. found.items) found ≡ option_and_then numbers.as_numbers (get key.now (view value.now))) }
{
    match value.get(key) {
        Some(numbers) => as_numbers(alloc, numbers),
        None => Ok(None),
    }
}

/// The wires that are written.
fn wires_in(alloc: Global, value: &Value) -> Result<Option<Vec<u32>>, OutOfMemory>
    ensures { IfOk result (λ wires. option_map (λ wires. wires.items) wires ≡ spec.wires_in (view value.now)) }
{
    numbers_at(alloc, "to", value)
}

/// The wires of a box that has none, which may be absent.
fn wires_or_none(alloc: Global, value: Option<&Value>) -> Result<Option<Vec<u32>>, OutOfMemory>
    ensures { IfOk result (λ wires. option_map (λ wires. wires.items) wires ≡ spec.wires_or_none (option_map (λ value. view value.now) value.entry)) }
{
    match value {
        Some(value) => as_numbers(alloc, value),
        None => Ok(Some(Vec::new(alloc))),
    }
}

/// The box with these wires.
fn with_wires(kind: KindForm, wires: Option<Vec<u32>>) -> Option<BoxForm>
    ensures { option_map form_of_box result ≡ spec.with_wires (option_map (λ wires. wires.items) wires) kind }
{
    let to = wires?;
    Some(BoxForm { kind, to })
}

/// The picking with the name.
fn pick_named(name: &str) -> Option<Pick>
    ensures { result ≡ spec.pick_named name.now }
{
    match name {
        "first" => Some(Pick::First),
        "random" => Some(Pick::Random),
        _ => None,
    }
}

/// The picking that is written. Where none is, the first place is picked.
fn pick_or_first(value: Option<&Value>) -> Option<Pick>
    ensures { result ≡ spec.pick_or_first (option_map (λ value. view value.now) value.entry) }
{
    match value {
        Some(value) => pick_named(value.as_str()?),
        None => Some(Pick::First),
    }
}

/// The comparison with the name.
fn cmp_named(name: &str) -> Option<Cmp>
    ensures { result ≡ spec.cmp_named name.now }
{
    match name {
        "lt" => Some(Cmp::Lt),
        "eq" => Some(Cmp::Eq),
        "gt" => Some(Cmp::Gt),
        _ => None,
    }
}

/// The comparison that is written.
fn cmp_in(value: &Value) -> Option<Cmp>
    ensures { result ≡ option_and_then spec.cmp_named (spec.text_at (codes "cmp") (view value.now)) }
{
    cmp_named(text_at("cmp", value)?)
}

/// The number that a test compares with.
fn count_in(value: &Value) -> Option<u64>
    ensures { result ≡ option_and_then json.as_count (get (codes "count") (view value.now)) }
{
    count_of(value.get("count")?)
}

/// The number of a loop. One past 32 bits is as good as the greatest of 32 bits.
fn loop_count_in(value: &Value) -> Option<u32>
    ensures { result ≡ option_and_then numbers.as_number (get (codes "count") (view value.now)) }
{
    as_number(value.get("count")?)
}

/// The form of a rule's box.
fn rule_form(alloc: Global, value: &Value) -> Result<Option<BoxForm>, OutOfMemory>
    ensures { IfOk result (λ form. option_map form_of_box form ≡ spec.rule_form (view value.now)) }
{
    if !has_only(&RULE_KEYS, value) {
        return Ok(None);
    }
    let Some(name) = text_at("rule", value) else {
        return Ok(None);
    };
    let Some(pick) = pick_or_first(value.get("pick")) else {
        return Ok(None);
    };
    let wires = wires_in(alloc, value)?;
    let name = Text::of(alloc, name)?;
    Ok(with_wires(KindForm::Rule(name, pick), wires))
}

/// The form of a test.
fn test_form(alloc: Global, value: &Value) -> Result<Option<BoxForm>, OutOfMemory>
    ensures { IfOk result (λ form. option_map form_of_box form ≡ spec.test_form (view value.now)) }
{
    if !has_only(&TEST_KEYS, value) {
        return Ok(None);
    }
    let Some(name) = text_at("list", value) else {
        return Ok(None);
    };
    let Some(cmp) = cmp_in(value) else {
        return Ok(None);
    };
    let Some(count) = count_in(value) else {
        return Ok(None);
    };
    let wires = wires_in(alloc, value)?;
    let name = Text::of(alloc, name)?;
    Ok(with_wires(KindForm::Test(name, cmp, count), wires))
}

/// The form of a draw.
fn draw_form(alloc: Global, value: &Value) -> Result<Option<BoxForm>, OutOfMemory>
    ensures { IfOk result (λ form. option_map form_of_box form ≡ spec.draw_form (view value.now)) }
{
    if !has_only(&DRAW_KEYS, value) {
        return Ok(None);
    }
    let Some(weights) = numbers_at(alloc, "weights", value)? else {
        return Ok(None);
    };
    let wires = wires_in(alloc, value)?;
    Ok(with_wires(KindForm::Draw(Weights::of(weights)), wires))
}

/// The form of a loop.
fn loop_form(alloc: Global, value: &Value) -> Result<Option<BoxForm>, OutOfMemory>
    ensures { IfOk result (λ form. option_map form_of_box form ≡ spec.loop_form (view value.now)) }
{
    if !has_only(&LOOP_KEYS, value) {
        return Ok(None);
    }
    let Some(count) = loop_count_in(value) else {
        return Ok(None);
    };
    let wires = wires_in(alloc, value)?;
    Ok(with_wires(KindForm::Loop(count), wires))
}

/// The form of a show.
fn show_form(alloc: Global, value: &Value) -> Result<Option<BoxForm>, OutOfMemory>
    ensures { IfOk result (λ form. option_map form_of_box form ≡ spec.show_form (view value.now)) }
{
    if !has_only(&PLAIN_KEYS, value) {
        return Ok(None);
    }
    let wires = wires_in(alloc, value)?;
    Ok(with_wires(KindForm::Show, wires))
}

/// The form of the exit, or of the box that fails.
fn last_form(alloc: Global, kind: KindForm, value: &Value) -> Result<Option<BoxForm>, OutOfMemory>
    ensures { IfOk result (λ form. option_map form_of_box form ≡ spec.last_form kind (view value.now)) }
{
    if !has_only(&PLAIN_KEYS, value) {
        return Ok(None);
    }
    let wires = wires_or_none(alloc, value.get("to"))?;
    Ok(with_wires(kind, wires))
}

/// The form of a box of the kind with the name.
fn form_named(alloc: Global, name: &str, value: &Value) -> Result<Option<BoxForm>, OutOfMemory>
    ensures { IfOk result (λ form. option_map form_of_box form ≡ spec.form_named name.now (view value.now)) }
{
    match name {
        "rule" => rule_form(alloc, value),
        "test" => test_form(alloc, value),
        "draw" => draw_form(alloc, value),
        "loop" => loop_form(alloc, value),
        "show" => show_form(alloc, value),
        "exit" => last_form(alloc, KindForm::Exit, value),
        "fail" => last_form(alloc, KindForm::Fail, value),
        _ => Ok(None),
    }
}

/// The form of the box that the value is.
pub(crate) fn box_form(alloc: Global, value: &Value) -> Result<Option<BoxForm>, OutOfMemory>
    ensures { IfOk result (λ form. option_map form_of_box form ≡ spec.box_form (view value.now)) }
{
    match text_at("box", value) {
        Some(name) => form_named(alloc, name, value),
        None => Ok(None),
    }
}
