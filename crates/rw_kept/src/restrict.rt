//! What a tuple of a condition's pattern gives to the parts of the left side.

ghost use Rattle.std.specs.Prelude.{◌≡◌, ◌<◌, ◌++◌, All, IfOk, List, OnOk, length, map, slice_index};
ghost use Rattle.rw_schema.specs.declared.atom.Kind as kind;
ghost use Rattle.rw_schema.specs.Signature.{Signature};
ghost use Rattle.rw_pattern.specs.PatternLists.{size_of, place_of};
ghost use Rattle.rw_rule.specs.RuleParts.{condition_of_parts};
ghost use Rattle.rw_kept.specs.Conditions.{IsConditionOf, image_places as places_of_images};

use rw_pattern::{Pattern, Tuple};
use rw_rule::Condition;
use rw_schema::{ObjectId, OutOfMemory};
use std::alloc::Global;

/// Puts the places of the parts of an object behind the others.
fn push_places(
    pattern: &Pattern,
    object: ObjectId,
    parts: &[u32],
    places: &mut Vec<usize>,
) -> Result<(), OutOfMemory>
    requires object { object.0 < length pattern.now.sizes }
    requires parts { All (λ part. part < size_of pattern.now object.0) parts.now }
    ensures { OnOk result (places.new.items ≡ places.old.items ++ map (place_of pattern.now object.0) parts.now) }
{
    for part in parts {
        places.push(pattern.place(object, *part))?;
    }
    Ok(())
}

/// Of each place of the left side, the place of its image in the condition's pattern.
pub(crate) fn image_places(
    alloc: Global,
    left: &Pattern,
    condition: &Condition,
) -> Result<Vec<usize>, OutOfMemory>
    requires { (C : Signature) × (kinds : List kind.Kind) × IsConditionOf C kinds left.now (condition_of_parts condition.now) }
    ensures { IfOk result (λ places. places.items ≡ places_of_images left.now (condition_of_parts condition.now)) }
{
    let mut places = Vec::new(alloc);
    for (number, _) in left.sizes().iter().enumerate() {
        let object = ObjectId(number as u16);
        push_places(
            &condition.pattern,
            object,
            condition.map.images(object),
            &mut places,
        )?;
    }
    Ok(places)
}

/// The name at a place, or 0 where none is there.
fn name_at(names: &[u32], place: usize) -> u32
    ensures { result ≡ slice_index names.now place }
{
    names.get(place).copied().unwrap_or(0)
}

/// The names at the places.
pub(crate) fn restricted(
    alloc: Global,
    places: &[usize],
    names: &[u32],
) -> Result<Tuple, OutOfMemory>
    ensures { IfOk result (λ tuple. tuple ≡ map (slice_index names.now) places.now) }
{
    let mut found = Vec::new(alloc);
    for place in places {
        found.push(name_at(names, *place))?;
    }
    Tuple::of(alloc, found.as_slice())
}
