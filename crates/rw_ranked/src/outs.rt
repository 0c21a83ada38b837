//! Taking a node out.

ghost use Rattle.std.specs.Prelude.{◌≡◌, ◌<◌, ◌^◌, length, filter, not};
ghost use Rattle.std.specs.Cmp.Lexicographic.{slice_cmp};
ghost use Rattle.std.specs.List.Sorted.{IsStrictlySortedBy};
ghost use Rattle.std.specs.Ordering.{nat_cmp, eq_by_cmp};
ghost use Rattle.rw_ranked.specs.Order.{tuples_of, sizes_of};

use crate::{Link, balanced, join};
use rw_pattern::Tuple;

/// The tree without the tuple. The node goes; no memory is taken.
pub fn take_out(link: Link, key: &Tuple) -> Link
    requires sizes { sizes_of link }
    requires few { length (tuples_of link) < 2 ^ 63 }
    requires up { IsStrictlySortedBy (slice_cmp nat_cmp) (tuples_of link) }
    ensures tuples { tuples_of result ≡ filter (λ other. not (eq_by_cmp (slice_cmp nat_cmp) key.now other)) (tuples_of link) }
    ensures sizes { sizes_of result }
{
    match link {
        None => None,
        Some(mut here) => {
            if *key < here.key {
                let left = here.left.take();
                here.left = take_out(left, key);
                Some(balanced(here))
            } else if here.key < *key {
                let right = here.right.take();
                here.right = take_out(right, key);
                Some(balanced(here))
            } else {
                join(here.left.take(), here.right.take())
            }
        }
    }
}
