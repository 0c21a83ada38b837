//! Names of each object of a schema.

ghost use Rattle.std.specs.Prelude.{◌≡◌, ◌<◌, true, All, length, map};
ghost use Rattle.rw_schema.specs.RowLists.{list_at};
ghost use Rattle.rw_spec.specs.Ascending.{ascends};

use crate::ordered::list_of;
use rw_schema::ObjectId;
use std::marker::Model;

/// Of each object some names, in ascending order.
#[derive(Drop)]
pub struct Changed {
    names: Vec<Vec<u32>>,
}

impl Model for Changed {
    ghost use Rattle.std.specs.Prelude.{◌≡◌, true, All, List, ℕ, map};
    ghost use Rattle.rw_spec.specs.Ascending.{ascends};

    ghost Value = { List (List ℕ) };

    ghost view = { λ changed. map (λ list. list.items) changed.names.items };

    ghost invariant = { λ changed. All (λ list. ascends list ≡ true) (map (λ list. list.items) changed.names.items) };
}

impl Changed {
    /// The names of each object, in the order of the objects.
    pub fn from_lists(names: Vec<Vec<u32>>) -> Changed
        requires { All (λ list. ascends list ≡ true) (map (λ list. list.items) names.items) }
        ensures { result ≡ map (λ list. list.items) names.items }
    {
        Changed { names }
    }

    /// The names of the object.
    pub fn names(&self, object: ObjectId) -> &[u32]
        requires { object.0 < length self.now }
        ensures names { result.now ≡ list_at self.now object.0 }
        ensures ascend { ascends result.now ≡ true }
    {
        list_of(self.names.as_slice(), object.0 as usize)
    }
}
