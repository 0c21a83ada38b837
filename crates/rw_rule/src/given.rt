//! Whether each attribute of each new part is set.

ghost use Rattle.std.specs.Prelude.{◌≡◌, ◌<◌, ◌≤◌, ◌==◌, length};
ghost use Rattle.std.specs.List.{list_any};
ghost use Rattle.rw_schema.specs.Presentation.{signature_of, ends_of_attribute};
ghost use Rattle.rw_rule.specs.RuleParts.{rule_of_parts};
ghost use Rattle.rw_rule.specs.Sets.{is_given as is_given_in, part_without, value_missing};

use crate::sets::is_set;
use crate::{RuleFault, RuleParts};
use rw_schema::{AttrDef, AttrId, ObjectId, Schema, has_number};

/// The first attribute that is not set on a new part.
pub fn first_value_missing(schema: &Schema, parts: &RuleParts) -> Option<RuleFault>
    requires sizes { length parts.now.right.sizes ≡ length schema.now.objects }
    requires images { length schema.now.objects ≤ length parts.now.r }
    ensures { result ≡ value_missing (signature_of schema.now) (rule_of_parts parts.now) }
{
    for (number, attribute) in schema.attribute_list().iter().enumerate() {
        if let Some(fault) = first_part_without(parts, AttrId(number as u16), attribute) {
            return Some(fault);
        }
    }
    None
}

/// The first new part on which the attribute is not set.
fn first_part_without(parts: &RuleParts, attr: AttrId, attribute: &AttrDef) -> Option<RuleFault>
    requires object { attribute.now.object.0 < length parts.now.right.sizes }
    requires images { attribute.now.object.0 < length parts.now.r }
    ensures { result ≡ part_without (rule_of_parts parts.now) attr.0 (ends_of_attribute attribute.now) }
{
    for part in 0..parts.right.size(attribute.object) {
        if !is_given(parts, attr, attribute.object, part) {
            return Some(RuleFault::NoValueGiven { attr, part });
        }
    }
    None
}

/// Whether the part is the image of a kept one, or the attribute is set on it.
fn is_given(parts: &RuleParts, attr: AttrId, object: ObjectId, part: u32) -> bool
    requires { object.0 < length parts.now.r }
    ensures { result ≡ is_given_in (rule_of_parts parts.now) attr.0 object.0 part }
{
    has_number(parts.r.images(object), part) || is_set(parts.sets.as_slice(), attr, part)
}
