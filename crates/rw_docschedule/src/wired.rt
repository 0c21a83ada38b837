//! The boxes of a schedule, with their wires.

ghost use Rattle.std.specs.Prelude.{◌≡◌, ◌≤◌, length, nat_lt};
ghost use Rattle.std.specs.List.{list_all};
ghost use Rattle.serde_json.specs.View.{view};
ghost use Rattle.rw_doc.specs.Gives.{Gives};
ghost use Rattle.rw_docschedule.specs.Boxes as spec;
ghost use Rattle.rw_docschedule.specs.Reads.{box_wired};

use crate::form::{BoxForm, KindForm, box_form};
use rw_doc::{Piece, ReadDocEnd};
use rw_sched::{BoxKind, is_small, ports};
use rw_schema::{NameIndex, Section};
use serde_json::Value;
use std::alloc::Global;

/// A box, and the boxes that its wires lead to.
#[derive(Drop)]
pub(crate) struct WiredBox {
    pub(crate) kind: BoxKind,
    pub(crate) to: Vec<u32>,
}

/// The entry of a box.
fn box_piece(place: u32) -> Piece
    ensures { result ≡ spec.box_piece place }
{
    Piece {
        section: Section::Boxes,
        first: place,
        second: 0,
    }
}

/// Whether the weights of a draw and the count of a loop are within their limits.
fn is_within(kind: &KindForm) -> bool
    ensures { result ≡ spec.is_within kind.now }
{
    match kind {
        KindForm::Rule(_, _) => true,
        KindForm::Test(_, _, _) => true,
        KindForm::Draw(weights) => weights.are_within_limits(),
        KindForm::Loop(count) => is_small(*count),
        KindForm::Show => true,
        KindForm::Exit => true,
        KindForm::Fail => true,
    }
}

/// The number of the list with the name.
fn list_named(names: &NameIndex, name: &str) -> Option<u32>
    requires { length names.now ≤ 1024 }
    ensures { result ≡ spec.list_named names.now name.now }
{
    let number = names.number_of(name)?;
    Some(number as u32)
}

/// The number, where it is one of a rule.
fn if_rule(rules: usize, number: u32) -> Option<u32>
    ensures { result ≡ spec.if_rule rules number }
{
    if (number as usize) < rules {
        Some(number)
    } else {
        None
    }
}

/// The number of the rule with the name. Of the names of the kept lists those of the rules are the first.
fn rule_named(rules: usize, names: &NameIndex, name: &str) -> Option<u32>
    requires { length names.now ≤ 1024 }
    ensures { result ≡ spec.rule_named rules names.now name.now }
{
    if_rule(rules, list_named(names, name)?)
}

/// The box with rules and lists by their numbers.
fn kind_named(rules: usize, names: &NameIndex, kind: KindForm) -> Option<BoxKind>
    requires { length names.now ≤ 1024 }
    ensures { result ≡ spec.kind_named rules names.now kind }
{
    match kind {
        KindForm::Rule(name, pick) => {
            let rule = rule_named(rules, names, name.as_str())?;
            Some(BoxKind::Rule(rule, pick))
        }
        KindForm::Test(name, cmp, count) => {
            let list = list_named(names, name.as_str())?;
            Some(BoxKind::Test(list, cmp, count))
        }
        KindForm::Draw(weights) => Some(BoxKind::Draw(weights)),
        KindForm::Loop(count) => Some(BoxKind::Loop(count)),
        KindForm::Show => Some(BoxKind::Show),
        KindForm::Exit => Some(BoxKind::Exit),
        KindForm::Fail => Some(BoxKind::Fail),
    }
}

/// Whether each wire leads to one of so many boxes.
fn lead_to_boxes(count: usize, to: &[u32]) -> bool
    ensures { result ≡ list_all (λ wire. nat_lt wire count) to.now }
{
    to.iter().all(|wire| (*wire as usize) < count)
}

/// Whether the box has one wire for each port, and each leads to one of so many boxes.
fn is_wired(count: usize, kind: &BoxKind, to: &[u32]) -> bool
    ensures { result ≡ spec.is_wired count kind.now to.now }
{
    to.len() == ports(kind) && lead_to_boxes(count, to)
}

/// The box at a place of so many, over so many rules and the names of the kept lists.
pub(crate) fn read_box(
    alloc: Global,
    rules: usize,
    names: &NameIndex,
    count: usize,
    place: u32,
    value: &Value,
) -> Result<WiredBox, ReadDocEnd>
    requires { length names.now ≤ 1024 }
    ensures { Gives box_wired result (spec.read_box rules names.now count place (view value.now)) }
{
    let Some(form) = box_form(alloc, value)? else {
        return Err(box_piece(place).refused(2));
    };
    let BoxForm { kind: written, to } = form;
    if !is_within(&written) {
        return Err(box_piece(place).refused(4));
    }
    let Some(kind) = kind_named(rules, names, written) else {
        return Err(box_piece(place).refused(6));
    };
    if !is_wired(count, &kind, to.as_slice()) {
        return Err(box_piece(place).refused(15));
    }
    Ok(WiredBox { kind, to })
}
