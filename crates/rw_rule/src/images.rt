//! Maps between patterns.

ghost use Rattle.std.specs.Prelude.{◌≡◌, ◌≤◌, length};
ghost use Rattle.rw_rule.specs.Images.{is_injective};

use rw_pattern::{Pattern, is_each_once};
use rw_schema::{ObjectId, PartMap};

/// Whether no two parts of one object have one image. It takes no memory.
pub fn is_one_to_one(from: &Pattern, images: &PartMap) -> bool
    requires { length from.now.sizes ≤ length images.now }
    ensures { result ≡ is_injective from.now images.now }
{
    for (object, _) in from.sizes().iter().enumerate() {
        if !is_each_once(images.images(ObjectId(object as u16))) {
            return false;
        }
    }
    true
}
