//! Laws that tie the answers of limits to what they are asked of.

ghost use Rattle.rw_schema.specs.Presentation.{signature_of};
ghost use Rattle.rw_spec.specs.Tabled.{IsOver};
ghost use Rattle.rw_limits.specs.OneLimit.{HasOnePullback, HasOnePushout};
ghost use Rattle.rw_limits.specs.Pullbacks.{cospan_of};
ghost use Rattle.rw_limits.specs.Pushouts.{frame_of};

use rw_schema::{PartMap, Schema};
use rw_table::Table;

/// A frame of tables has one pushout or one first clash: what `pushout` promises determines its answer, but for want of
/// memory. The call does nothing that is seen: its contract is the law.
pub fn has_one_pushout(
    schema: &Schema,
    apex: &Table,
    left: &Table,
    right: &Table,
    f: &PartMap,
    g: &PartMap,
)
    requires left { IsOver schema.now left.now }
    requires right { IsOver schema.now right.now }
    ensures { HasOnePushout (signature_of schema.now) (frame_of apex.now left.now right.now f.now g.now) }
{
    // That both sides are instances is known by their lists.
    let _left = left.rows();
    let _right = right.rows();
}

/// A cospan of tables has one pullback, or is too large at one object: what `pullback` promises determines its answer,
/// but for want of memory. The call does nothing: its contract is the law.
pub fn has_one_pullback(
    schema: &Schema,
    left: &Table,
    right: &Table,
    base: &Table,
    f: &PartMap,
    g: &PartMap,
)
    ensures { HasOnePullback (signature_of schema.now) (cospan_of left.now right.now base.now f.now g.now) }
{}
