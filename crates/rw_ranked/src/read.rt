//! Reading the set by places.

ghost use Rattle.std.specs.Prelude.{◌≡◌, ◌<◌, ◌^◌, length, slice_index_or, []};
ghost use Rattle.rw_ranked.specs.Order.{tuples_at, tuples_of, has_sizes, sizes_of};
ghost use Rattle.rw_ranked.specs.declared.node.Node.{out-Node};

use crate::{Link, Node};
use rw_pattern::Tuple;

/// How many tuples there are.
pub fn count(link: &Link) -> usize
    requires { sizes_of link.now }
    ensures { result ≡ length (tuples_of link.now) }
{
    match link {
        None => 0,
        Some(node) => node.size,
    }
}

/// The tuple at a place.
pub fn nth(node: &Node, at: usize) -> &Tuple
    requires sizes { has_sizes node.now }
    requires within { at < length (tuples_at node.now) }
    ensures { result.now ≡ slice_index_or (tuples_at node.now) at [] }
{
    let before = count(&node.left);
    if at < before {
        match &node.left {
            Some(left) => nth(left, at),
            None => &node.key,
        }
    } else if before < at {
        match &node.right {
            Some(right) => nth(right, at - before - 1),
            None => &node.key,
        }
    } else {
        &node.key
    }
}

/// The node with the number of its tuples, where those below it have theirs.
pub fn settle(mut here: Box<Node>) -> Box<Node>
    requires left { sizes_of (out-Node here.value).left }
    requires right { sizes_of (out-Node here.value).right }
    requires few { length (tuples_at here.value) < 2 ^ 63 }
    ensures tuples { tuples_at result.value ≡ tuples_at here.value }
    ensures sizes { has_sizes result.value }
{
    let before = count(&here.left);
    let behind = count(&here.right);
    here.size = before + 1 + behind;
    here
}
