//! What a step keeps of an instance.

use rw_schema::ObjectId;
use std::marker::Model;

/// A further part of a context, over a part of the host.
#[derive(Drop)]
pub struct Copied {
    /// The object of the part.
    pub object: ObjectId,

    /// The part of the host that it lies over.
    pub origin: u32,

    pub name: u32,

    /// Where the arrows that leave the object lead from it, in the order of the arrows.
    pub rows: Vec<u32>,
}

impl Model for Copied {
    ghost use Rattle.rw_delta.specs.ContextLists.{CopiedLists};

    ghost Value = { CopiedLists };

    ghost view = { λ copied. record {
      object = copied.object.0;
      origin = copied.origin;
      name = copied.name;
      rows = copied.rows.items;
    } };
}

/// What a step keeps of an instance, its host, before anything new comes: how it differs from the host. It is as long as
/// what the rule has and what changes, and never as long as the host. It is not looked at when it is made.
///
/// Corradini, Heindel, Hermann and König, "Sesqui-pushout rewriting" (2006), compare the contexts of the kinds of steps.
#[derive(Drop)]
pub struct Context {
    /// Of each object and each of its kept parts the name here, or nothing where the part is dropped.
    pub of_keep: Vec<Vec<Option<u32>>>,

    /// Of each object the names of the host that are not here.
    pub removed: Vec<Vec<u32>>,

    /// The further parts.
    pub copies: Vec<Copied>,

    /// Of each attribute the names here whose cell is blank though that of the host's part is an atom.
    pub blank: Vec<Vec<u32>>,

    /// Of each object which parts of the rule's right side stay.
    pub right: Vec<Vec<bool>>,

    /// Of each attribute which cells of the right side's parts stay.
    pub right_cells: Vec<Vec<bool>>,

    /// Of each arrow the names of the host that are here and that it leads elsewhere than in the host, each with its
    /// value here, in ascending order.
    pub rows: Vec<Vec<(u32, u32)>>,

    /// Of each object the next name after the further parts.
    pub next: Vec<u32>,
}

impl Model for Context {
    ghost use Rattle.std.specs.Prelude.{map};
    ghost use Rattle.rw_delta.specs.ContextLists.{ContextLists};

    ghost Value = { ContextLists };

    ghost view = { λ context. record {
      of_keep = map (λ list. list.items) context.of_keep.items;
      removed = map (λ list. list.items) context.removed.items;
      copies = context.copies.items;
      blank = map (λ list. list.items) context.blank.items;
      right = map (λ list. list.items) context.right.items;
      right_cells = map (λ list. list.items) context.right_cells.items;
      rows = map (λ list. list.items) context.rows.items;
      next = context.next.items;
    } };
}
