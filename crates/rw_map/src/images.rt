//! What the images of an object's parts are.

ghost use Rattle.std.specs.Prelude.{◌≡◌, ◌==◌, ◌<◌, length};
ghost use Rattle.std.specs.List.{list_any};
ghost use Rattle.rw_schema.specs.RowLists.{list_at};
ghost use Rattle.rw_spec.specs.Distinct.{are_distinct};

use rw_schema::{ObjectId, PartMap};

/// Whether no two parts of the object have one image. It takes no memory; the time is quadratic in the parts.
pub fn is_injective(map: &PartMap, object: ObjectId) -> bool
    requires { object.0 < length map.now }
    ensures { result ≡ are_distinct (list_at map.now object.0) }
{
    are_different(map.images(object))
}

/// Whether the numbers are different.
fn are_different(numbers: &[u32]) -> bool
    ensures { result ≡ are_distinct numbers.now }
{
    for (place, number) in numbers.iter().enumerate() {
        if numbers[place + 1..].contains(number) {
            return false;
        }
    }
    true
}

/// Whether the name is the image of a part of the object.
pub fn image_contains(map: &PartMap, object: ObjectId, name: u32) -> bool
    requires { object.0 < length map.now }
    ensures { result ≡ list_any (λ image. image == name) (list_at map.now object.0) }
{
    map.images(object).iter().any(|image| *image == name)
}
