//! Cospans in lists, and the pairs of their objects.

ghost use Rattle.std.specs.Prelude.{◌≡◌, ◌<◌, IfOk, length, map};
ghost use Rattle.std.specs.List.{range_with_len};
ghost use Rattle.rw_limits.specs.Pairs.{pairs_at};
ghost use Rattle.rw_limits.specs.Pullbacks.{too_large};
ghost use Rattle.rw_limits.specs.inner.Sides.{AreSides, pairs_between};
ghost use Rattle.rw_limits.specs.inner.RowCospans.{IsCospan, cospan_in, signature_in};

use crate::pairs::{Sides, agreeing_pairs, has_few_pairs};
use rw_schema::{ObjectId, OutOfMemory, PartMap, Rows, Schema};
use std::alloc::Global;

/// The lists of two instances over a base, with a map into the base for each.
#[derive(Clone, Copy)]
pub struct RowCospan<'a> {
    pub schema: &'a Schema,
    pub left: &'a Rows,
    pub right: &'a Rows,
    pub base: &'a Rows,
    pub left_map: &'a PartMap,
    pub right_map: &'a PartMap,
}

/// The pairs of each object.
pub fn object_pairs(alloc: Global, cospan: &RowCospan) -> Result<Vec<Vec<(u32, u32)>>, OutOfMemory>
    requires { IsCospan cospan.now }
    ensures { IfOk result (λ pairs. map (λ list. list.items) pairs.items
        ≡ map (pairs_at (cospan_in cospan.now)) (range_with_len 0 (length cospan.now.schema.now.objects))) }
{
    let mut pairs = Vec::new(alloc);
    for place in 0..cospan.schema.objects() {
        let sides = sides_of(cospan, ObjectId(place as u16));
        pairs.push(agreeing_pairs(alloc, &sides)?)?;
    }
    Ok(pairs)
}

/// The first object with too many pairs. No pair is made.
pub fn first_too_large(alloc: Global, cospan: &RowCospan) -> Result<Option<ObjectId>, OutOfMemory>
    requires { IsCospan cospan.now }
    ensures { IfOk result (λ object. object ≡ too_large (signature_in cospan.now) (cospan_in cospan.now)) }
{
    for place in 0..cospan.schema.objects() {
        let object = ObjectId(place as u16);
        if !has_few_pairs(alloc, &sides_of(cospan, object))? {
            return Ok(Some(object));
        }
    }
    Ok(None)
}

/// The two sides at the object.
fn sides_of<'a>(cospan: &RowCospan<'a>, object: ObjectId) -> Sides<'a>
    requires cospan { IsCospan cospan.now }
    requires object { object.0 < length cospan.now.schema.now.objects }
    ensures sides { AreSides result }
    ensures pairs { pairs_between result ≡ pairs_at (cospan_in cospan.now) object.0 }
{
    Sides {
        base: cospan.base.names(object),
        left: cospan.left.names(object),
        left_images: cospan.left_map.images(object),
        right: cospan.right.names(object),
        right_images: cospan.right_map.images(object),
    }
}
