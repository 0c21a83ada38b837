//! The first pieces of watches: their names and monic objects.

ghost use Rattle.std.specs.Prelude.{◌≡◌, false, IfOk, length, option_map};
ghost use Rattle.std.specs.List.{list_any};
ghost use Rattle.std.specs.Str.{bytes_eq};
ghost use Rattle.rw_doc.specs.Gives.{Gives};
ghost use Rattle.rw_docwatch.specs.Heads as spec;
ghost use Rattle.rw_docwatch.specs.Members.{members_of_watch};
ghost use Rattle.rw_docwatch.specs.Reads.{form_of_watch, head_of_watch};

use crate::members::WatchMembers;
use rw_doc::{Piece, ReadDocEnd, has_name_length};
use rw_docpattern::{read_monic, texts_or_none};
use rw_schema::{NameIndex, OutOfMemory, Schema, Text};
use std::alloc::Global;

/// What a watch's own piece is written in.
#[derive(Drop)]
struct WatchForm {
    name: Text,
    monic: Vec<Text>,
}

/// The name of a watch, and of each object whether it is monic.
#[derive(Drop)]
pub(crate) struct WatchHead {
    pub(crate) name: Text,
    pub(crate) monic: Vec<bool>,
}

/// The form of a watch's own piece, if the members have it.
fn watch_form(alloc: Global, members: &WatchMembers<'_>) -> Result<Option<WatchForm>, OutOfMemory>
    ensures { IfOk result (λ form. option_map form_of_watch form ≡ spec.watch_form (members_of_watch members.now)) }
{
    let Some(name) = members.name.as_str() else {
        return Ok(None);
    };
    let Some(monic) = texts_or_none(alloc, members.monic)? else {
        return Ok(None);
    };
    let name = Text::of(alloc, name)?;
    Ok(Some(WatchForm { name, monic }))
}

/// A watch's own piece, where these names are taken.
pub(crate) fn read_watch_head(
    alloc: Global,
    schema: &Schema,
    taken: &NameIndex,
    piece: Piece,
    members: &WatchMembers<'_>,
) -> Result<WatchHead, ReadDocEnd>
    ensures gives { Gives head_of_watch result (spec.read_watch_head schema.now.objects taken.now piece (members_of_watch members.now)) }
    ensures new { IfOk result (λ head. list_any (bytes_eq head.name) taken.now ≡ false) }
    ensures long { IfOk result (λ head. length head.monic.items ≡ length schema.now.objects) }
{
    let Some(form) = watch_form(alloc, members)? else {
        return Err(piece.refused(2));
    };
    if !has_name_length(form.name.as_str()) {
        return Err(piece.refused(4));
    }
    if taken.has(form.name.as_str()) {
        return Err(piece.refused(5));
    }
    let monic = read_monic(alloc, schema, piece, form.monic.as_slice())?;
    Ok(WatchHead {
        name: form.name,
        monic,
    })
}
