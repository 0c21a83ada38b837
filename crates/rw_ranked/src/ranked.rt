//! The set.

ghost use Rattle.std.specs.Prelude.{◌≡◌, ◌<◌, ◌+◌, ◌^◌, [], ◌∷◌, length, Contains, slice_index_or, MatchOption, ◌≤◌, filter, not};
ghost use Rattle.std.specs.BTreeSet.{insert_key};
ghost use Rattle.std.specs.Cmp.Lexicographic.{slice_cmp};
ghost use Rattle.std.specs.Ordering.{nat_cmp, eq_by_cmp};
ghost use Rattle.rw_ranked.specs.Order.{tuples_at, has_sizes};
ghost use Rattle.rw_ranked.specs.declared.node.Node.{out-Node};

use crate::{Link, Node, count, insert, nth, take_out};
use rw_pattern::Tuple;
use std::marker::Model;

/// An ordered set of tuples.
#[derive(Drop)]
pub struct Ranked {
    root: Link,
}

impl Model for Ranked {
    ghost use Rattle.std.specs.Prelude.{List, ℕ, ◌<◌, ◌^◌, length};
    ghost use Rattle.std.specs.Cmp.Lexicographic.{slice_cmp};
    ghost use Rattle.std.specs.List.Sorted.{IsStrictlySortedBy};
    ghost use Rattle.std.specs.Ordering.{nat_cmp};
    ghost use Rattle.rw_ranked.specs.Order.{tuples_of, sizes_of};

    ghost Value = { List (List ℕ) };

    ghost view = { λ set. tuples_of set.root };

    ghost invariant = { λ set. IsStrictlySortedBy (slice_cmp nat_cmp) (tuples_of set.root) × sizes_of set.root × (length (tuples_of set.root) < 2 ^ 63) };
}

impl Ranked {
    pub fn new() -> Ranked
        ensures { result ≡ [] }
    {
        Ranked { root: None }
    }

    /// How many tuples there are.
    pub fn len(&self) -> usize
        ensures { result ≡ length self.now }
    {
        count(&self.root)
    }

    /// The tuple at a place, or none past the last.
    pub fn get(&self, at: usize) -> Option<&Tuple>
        ensures { MatchOption result (length self.now ≤ at) (λ tuple. (at < length self.now) × (tuple.now ≡ slice_index_or self.now at [])) }
    {
        match &self.root {
            None => None,
            Some(node) => {
                if at < node.size {
                    Some(nth(node, at))
                } else {
                    None
                }
            }
        }
    }

    /// Puts a node with a new tuple in. No memory is taken.
    pub fn put_in(&mut self, node: Box<Node>)
        requires alone { tuples_at node.value ≡ (out-Node node.value).key ∷ [] }
        requires alone_sizes { has_sizes node.value }
        requires new { Contains self.old (out-Node node.value).key → ⊥ }
        requires few { length self.old + 1 < 2 ^ 63 }
        ensures { self.new ≡ insert_key (slice_cmp nat_cmp) self.old (out-Node node.value).key }
    {
        let root = self.root.take();
        self.root = Some(insert(root, node));
    }

    /// Takes the tuple out, where it is there. No memory is taken.
    pub fn take_out(&mut self, key: &Tuple)
        ensures { self.new ≡ filter (λ other. not (eq_by_cmp (slice_cmp nat_cmp) key.now other)) self.old }
    {
        let root = self.root.take();
        self.root = take_out(root, key);
    }
}
