//! The names of classes: what becomes of touched names and of parts of the right side.

ghost use Rattle.std.specs.Prelude.{◌≡◌, ◌<◌, ◌≤◌, ◌+◌, ℕ, All, IfOk, [], drop, length, map, slice_index};
ghost use Rattle.rw_schema.specs.RowLists.{list_at};
ghost use Rattle.rw_classes.specs.ClassLists.{first_lists, number_lists};
ghost use Rattle.rw_pattern.specs.PatternLists.{size_of};
ghost use Rattle.rw_columns.specs.inner.Filled.{AreAll};
ghost use Rattle.rw_local.specs.inner.ChangeTo.{other_values};
ghost use Rattle.rw_redex.specs.Obstructions.{most_names};
ghost use Rattle.rw_redex.specs.RuleParts.{HasObject};
ghost use Rattle.rw_glue.specs.inner.Names.{AreClassNames, AreMoved, AreMovedBy, ArePlaced, AreNameable, HaveNames, name_of_first};

use crate::lists::{add_list, list_of, numbers_at};
use rw_classes::{Classes, firsts_at, numbers_at as class_numbers};
use rw_redex::new_before;
use rw_rule::Rule;
use rw_schema::{ObjectId, OutOfMemory, Rows};
use std::alloc::Global;

/// What becomes of names and parts, object by object.
#[derive(Drop)]
pub struct Names {
    /// The touched names that get another name, each with that name, in ascending order.
    pub moved: Vec<Vec<(u32, u32)>>,

    /// The name of each part of the right side.
    pub placed: Vec<Vec<u32>>,
}

/// Of each object the names of its classes.
pub fn name_lists(
    alloc: Global,
    rule: &Rule,
    next: &[u32],
    left: &Rows,
    classes: &[Classes],
) -> Result<Vec<Vec<u32>>, OutOfMemory>
    requires few { length classes.now ≤ 64 }
    requires next { length next.now ≡ length classes.now }
    requires left { length left.now.names ≡ length classes.now }
    requires objects { (object : ℕ) → object < length classes.now → AreNameable rule.now next.now left.now.names (first_lists classes.now) object }
    ensures { IfOk result (λ names. AreAll [] (AreClassNames rule.now next.now left.now.names (first_lists classes.now))
        (length classes.now) (map (λ list. list.items) names.items)) }
{
    let mut names = Vec::new(alloc);
    for place in 0..classes.len() {
        let object = ObjectId(place as u16);
        add_list(
            &mut names,
            class_names(
                alloc,
                rule,
                object,
                next[place],
                left.names(object),
                firsts_at(classes, object),
            )?,
        )?;
    }
    Ok(names)
}

/// The names of the classes that begin with these parts.
fn class_names(
    alloc: Global,
    rule: &Rule,
    object: ObjectId,
    next: u32,
    touched: &[u32],
    firsts: &[u32],
) -> Result<Vec<u32>, OutOfMemory>
    requires object { HasObject rule.now object.0 }
    requires room { next ≤ most_names }
    requires firsts { All (λ first. first < length touched.now + size_of rule.now.right object.0) firsts.now }
    ensures { IfOk result (λ names. names.items ≡ map (name_of_first rule.now next touched.now object.0) firsts.now) }
{
    let mut names = Vec::new(alloc);
    for first in firsts {
        names.push(class_name(rule, object, next, touched, *first))?;
    }
    Ok(names)
}

/// The name of the class that begins with the part: a touched name stays, a part of the right side takes a next name.
fn class_name(rule: &Rule, object: ObjectId, next: u32, touched: &[u32], first: u32) -> u32
    requires object { HasObject rule.now object.0 }
    requires room { next ≤ most_names }
    requires first { first < length touched.now + size_of rule.now.right object.0 }
    ensures { result ≡ name_of_first rule.now next touched.now object.0 first }
{
    let place = first as usize;
    if place < touched.len() {
        touched[place]
    } else {
        next + new_before(rule, object, (place - touched.len()) as u32)
    }
}

/// Of each object the touched names that get another name, each with that name.
pub fn moved_lists(
    alloc: Global,
    left: &Rows,
    classes: &[Classes],
    names: &[Vec<u32>],
) -> Result<Vec<Vec<(u32, u32)>>, OutOfMemory>
    requires few { length classes.now ≤ 64 }
    requires left { length left.now.names ≡ length classes.now }
    requires names { length names.now ≡ length classes.now }
    requires numbers { (object : ℕ) → object < length classes.now → HaveNames left.now.names (number_lists classes.now) (map (λ list. list.items) names.now) object }
    ensures { IfOk result (λ moved. AreAll [] (AreMoved left.now.names (number_lists classes.now) (map (λ list. list.items) names.now))
        (length classes.now) (map (λ list. list.items) moved.items)) }
{
    let mut moved = Vec::new(alloc);
    for place in 0..classes.len() {
        let object = ObjectId(place as u16);
        let numbers = class_numbers(classes, object);
        add_list(
            &mut moved,
            moved_names(alloc, left.names(object), numbers, list_of(names, place))?,
        )?;
    }
    Ok(moved)
}

/// The touched names whose class has another name, each with that name.
fn moved_names(
    alloc: Global,
    touched: &[u32],
    numbers: &[u32],
    names: &[u32],
) -> Result<Vec<(u32, u32)>, OutOfMemory>
    requires each { length touched.now ≤ length numbers.now }
    requires classes { All (λ class. class < length names.now) numbers.now }
    ensures { IfOk result (λ moved. AreMovedBy touched.now numbers.now names.now moved.items) }
{
    let mut moved = Vec::new(alloc);
    for (place, name) in touched.iter().enumerate() {
        let new = names[numbers[place] as usize];
        if new != *name {
            moved.push((*name, new))?;
        }
    }
    Ok(moved)
}

/// Of each object the names of the parts of the right side.
pub fn placed_lists(
    alloc: Global,
    left: &Rows,
    classes: &[Classes],
    names: &[Vec<u32>],
) -> Result<Vec<Vec<u32>>, OutOfMemory>
    requires few { length classes.now ≤ 64 }
    requires left { length left.now.names ≡ length classes.now }
    requires names { length names.now ≡ length classes.now }
    requires numbers { (object : ℕ) → object < length classes.now → HaveNames left.now.names (number_lists classes.now) (map (λ list. list.items) names.now) object }
    ensures { IfOk result (λ placed. AreAll [] (ArePlaced left.now.names (number_lists classes.now) (map (λ list. list.items) names.now))
        (length classes.now) (map (λ list. list.items) placed.items)) }
{
    let mut placed = Vec::new(alloc);
    for place in 0..classes.len() {
        let object = ObjectId(place as u16);
        let numbers = class_numbers(classes, object);
        add_list(
            &mut placed,
            placed_names(alloc, left.names(object), numbers, list_of(names, place))?,
        )?;
    }
    Ok(placed)
}

/// The names of the classes of the parts behind the touched names.
fn placed_names(
    alloc: Global,
    touched: &[u32],
    numbers: &[u32],
    names: &[u32],
) -> Result<Vec<u32>, OutOfMemory>
    requires each { length touched.now ≤ length numbers.now }
    requires classes { All (λ class. class < length names.now) numbers.now }
    ensures { IfOk result (λ placed. placed.items ≡ map (slice_index names.now) (drop (length touched.now) numbers.now)) }
{
    numbers_at(alloc, names, &numbers[touched.len()..])
}
