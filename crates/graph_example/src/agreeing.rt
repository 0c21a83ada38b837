//! The pairs of two instances over a base that agree in it.

ghost use Rattle.std.specs.Prelude.{IfOk};
ghost use Rattle.rw_schema.specs.Presentation.{signature_of};
ghost use Rattle.rw_spec.specs.Tabled.{IsOver, instance_of_table};
ghost use Rattle.rw_map.specs.Homs.{IsHom};
ghost use Rattle.rw_limits.specs.Pullbacks.{IsPullbackOf, cospan_of};

use rw_limits::{PullbackResult, pullback};
use rw_map::Hom;
use rw_schema::{PartMap, Schema};
use rw_table::Table;
use std::alloc::Global;

/// The pullback of two maps into the base. It is Ok only where both are homomorphisms.
pub fn agreeing_pairs(
    alloc: Global,
    schema: &Schema,
    left: &Table,
    right: &Table,
    base: &Table,
    f: &PartMap,
    g: &PartMap,
) -> anyhow::Result<PullbackResult>
    requires left { IsOver schema.now left.now }
    requires right { IsOver schema.now right.now }
    requires base { IsOver schema.now base.now }
    ensures pairs { IfOk result (IsPullbackOf (signature_of schema.now) (cospan_of left.now right.now base.now f.now g.now)) }
    ensures f { IfOk result (λ _. IsHom (signature_of schema.now) (instance_of_table left.now) (instance_of_table base.now) f.now) }
    ensures g { IfOk result (λ _. IsHom (signature_of schema.now) (instance_of_table right.now) (instance_of_table base.now) g.now) }
{
    Hom::check(schema, left, base, f)?;
    Hom::check(schema, right, base, g)?;
    let pairs = pullback(alloc, schema, left, right, base, f, g)?;
    Ok(pairs)
}
