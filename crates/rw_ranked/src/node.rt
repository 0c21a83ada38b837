//! The nodes of the set.

ghost use Rattle.std.specs.Prelude.{◌≡◌, ◌<◌, ◌^◌, length};
ghost use Rattle.rw_ranked.specs.Order.{tuples_at, has_sizes, sizes_of};
ghost use Rattle.rw_ranked.specs.declared.node.Node.{out-Node};

use crate::{count, settle};
use rw_pattern::Tuple;

pub type Link = Option<Box<Node>>;

/// A tuple, what is before it, what is behind it, and how many all are.
#[derive(Drop)]
pub struct Node {
    pub key: Tuple,
    pub left: Link,
    pub right: Link,
    pub size: usize,
}

/// What is before the node in its place, and the node behind that: a turn, which keeps the order.
pub fn raise_left(mut here: Box<Node>) -> Box<Node>
    requires sizes { has_sizes here.value }
    requires few { length (tuples_at here.value) < 2 ^ 63 }
    ensures tuples { tuples_at result.value ≡ tuples_at here.value }
    ensures sizes { has_sizes result.value }
{
    match here.left.take() {
        None => settle(here),
        Some(mut up) => {
            here.left = up.right.take();
            up.right = Some(settle(here));
            settle(up)
        }
    }
}

/// What is behind the node in its place, and the node before that.
pub fn raise_right(mut here: Box<Node>) -> Box<Node>
    requires sizes { has_sizes here.value }
    requires few { length (tuples_at here.value) < 2 ^ 63 }
    ensures tuples { tuples_at result.value ≡ tuples_at here.value }
    ensures sizes { has_sizes result.value }
{
    match here.right.take() {
        None => settle(here),
        Some(mut up) => {
            here.right = up.left.take();
            up.left = Some(settle(here));
            settle(up)
        }
    }
}

/// The node with its number, turned where one side has three times as many tuples as the other.
pub fn balanced(here: Box<Node>) -> Box<Node>
    requires left { sizes_of (out-Node here.value).left }
    requires right { sizes_of (out-Node here.value).right }
    requires few { length (tuples_at here.value) < 2 ^ 63 }
    ensures tuples { tuples_at result.value ≡ tuples_at here.value }
    ensures sizes { has_sizes result.value }
{
    let before = count(&here.left);
    let behind = count(&here.right);
    let here = settle(here);
    if before / 3 > behind {
        raise_left(here)
    } else if behind / 3 > before {
        raise_right(here)
    } else {
        here
    }
}
