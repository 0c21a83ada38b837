//! The watches of a document.

ghost use Rattle.std.specs.Prelude.{◌≡◌, ◌≤◌, ◌++◌, [], All, IfOk, false, length, map, option_map};
ghost use Rattle.std.specs.List.{list_any};
ghost use Rattle.std.specs.Str.{bytes_eq};
ghost use Rattle.serde_json.specs.View.{view};
ghost use Rattle.rw_schema.specs.Presentation.{signature_of};
ghost use Rattle.rw_rule.specs.RuleParts.{lists_of_watch};
ghost use Rattle.rw_doc.specs.Chain.{each_after};
ghost use Rattle.rw_doc.specs.Gives.{Gives};
ghost use Rattle.rw_docwatch.specs.Known.{IsWatchRead};
ghost use Rattle.rw_docwatch.specs.Members.{members_of_watch};
ghost use Rattle.rw_docwatch.specs.Watches as spec;

use crate::heads::read_watch_head;
use crate::members::{WatchMembers, watch_members};
use rw_doc::{Piece, ReadDocEnd, read_list_or_none};
use rw_docpattern::read_pattern;
use rw_rule::{Goal, Watch};
use rw_schema::{NameIndex, Schema, Section};
use serde_json::Value;
use std::alloc::Global;

/// The greatest number of watches.
const MOST_WATCHES: usize = 64;

/// A piece of a watch.
fn watch_piece(watch: u32, piece: u32) -> Piece
    ensures { result ≡ spec.watch_piece watch piece }
{
    Piece {
        section: Section::Watches,
        first: watch,
        second: piece,
    }
}

/// The watch with these members, where these names are taken.
fn read_pieces(
    alloc: Global,
    schema: &Schema,
    taken: &NameIndex,
    place: u32,
    members: &WatchMembers<'_>,
) -> Result<Watch, ReadDocEnd>
    ensures gives { Gives lists_of_watch result (spec.read_watch_pieces schema.now taken.now place (members_of_watch members.now)) }
    ensures known { IfOk result (λ watch. IsWatchRead (signature_of schema.now) (lists_of_watch watch)) }
    ensures new { IfOk result (λ watch. list_any (bytes_eq watch.name) taken.now ≡ false) }
{
    let head = read_watch_head(alloc, schema, taken, watch_piece(place, 0), members)?;
    let read = read_pattern(alloc, schema, watch_piece(place, 1), members.pattern)?;
    let goal = Goal {
        left: read.pattern,
        monic: head.monic,
        conditions: Vec::new(alloc),
        kinds: read.kinds,
    };
    Ok(Watch {
        name: head.name,
        goal,
    })
}

/// The watch at this place, where these names are taken.
fn read_watch(
    alloc: Global,
    schema: &Schema,
    taken: &NameIndex,
    place: u32,
    value: &Value,
) -> Result<Watch, ReadDocEnd>
    ensures gives { Gives lists_of_watch result (spec.read_watch_where schema.now taken.now place (view value.now)) }
    ensures known { IfOk result (λ watch. IsWatchRead (signature_of schema.now) (lists_of_watch watch)) }
    ensures new { IfOk result (λ watch. list_any (bytes_eq watch.name) taken.now ≡ false) }
{
    match watch_members(value) {
        Some(members) => read_pieces(alloc, schema, taken, place, &members),
        None => Err(watch_piece(place, 0).refused(2)),
    }
}

/// The watches that the values are. Their names are taken then, besides those before.
fn watches_of(
    alloc: Global,
    schema: &Schema,
    names: &mut NameIndex,
    items: &[Value],
) -> Result<Vec<Watch>, ReadDocEnd>
    requires few { length items.now ≤ 64 }
    ensures gives { Gives (λ watches. map lists_of_watch watches.items) result (each_after (spec.read_watch schema.now names.old) [] (map view items.now)) }
    ensures known { IfOk result (λ watches. All (λ watch. IsWatchRead (signature_of schema.now) (lists_of_watch watch)) watches.items) }
    ensures names { IfOk result (λ watches. names.new ≡ names.old ++ spec.names_of_watches (map lists_of_watch watches.items)) }
    ensures few { IfOk result (λ watches. length watches.items ≤ 64) }
{
    let mut watches = Vec::new(alloc);
    for (place, item) in items.iter().enumerate() {
        let watch = read_watch(alloc, schema, names, place as u32, item)?;
        names.push(alloc, watch.name.as_str())?;
        watches.push(watch)?;
    }
    Ok(watches)
}

/// The watches that are written. Their names are taken then, besides those before, which are the rules'.
pub fn read_watches(
    alloc: Global,
    schema: &Schema,
    names: &mut NameIndex,
    value: Option<&Value>,
) -> Result<Vec<Watch>, ReadDocEnd>
    ensures gives { Gives (λ watches. map lists_of_watch watches.items) result (spec.read_watches schema.now names.old (option_map (λ value. view value.now) value.entry)) }
    ensures known { IfOk result (λ watches. All (λ watch. IsWatchRead (signature_of schema.now) (lists_of_watch watch)) watches.items) }
    ensures names { IfOk result (λ watches. names.new ≡ names.old ++ spec.names_of_watches (map lists_of_watch watches.items)) }
    ensures few { IfOk result (λ watches. length watches.items ≤ 64) }
{
    let items = read_list_or_none(Section::Watches, MOST_WATCHES, value)?;
    watches_of(alloc, schema, names, items)
}
