//! The elements that go.

ghost use Rattle.std.specs.Prelude.{◌≡◌, ◌<◌, ◌^◌, [], OnOk, Some, length, slice_get};
ghost use Rattle.rw_spo.specs.inner.Removed.{Marks, goes};

use crate::element::Element;
use indexmap::IndexSet;
use rw_schema::OutOfMemory;
use std::alloc::Global;
use std::marker::Model;

/// The elements that go, each once, in the order in which they went.
#[derive(Drop)]
pub(crate) struct Removed {
    elements: IndexSet<Element>,
}

impl Model for Removed {
    ghost use Rattle.std.specs.Prelude.{List};
    ghost use Rattle.rw_spo.specs.declared.element.Element.{Element};

    ghost Value = { List Element };

    ghost view = { λ removed. removed.elements.keys };
}

impl Removed {
    /// No elements. It takes no memory.
    pub(crate) fn new(alloc: Global) -> Removed
        ensures { result ≡ [] }
    {
        Removed {
            elements: IndexSet::new(alloc),
        }
    }

    /// How many elements go.
    pub(crate) fn len(&self) -> usize
        ensures value { result ≡ length self.now }
        ensures small { result < 2 ^ 63 }
    {
        self.elements.len()
    }

    /// The element at the place.
    pub(crate) fn at(&self, place: usize) -> Element
        requires { place < length self.now }
        ensures { slice_get self.now place ≡ Some result }
    {
        self.elements.as_slice()[place]
    }

    /// Whether the element goes.
    pub(crate) fn has(&self, element: Element) -> bool
        ensures { result ≡ goes self.now element }
    {
        self.elements.contains(&element)
    }

    /// Lets the element go, if there is one: it comes behind the others unless it is there.
    pub(crate) fn mark(&mut self, element: Option<Element>) -> Result<(), OutOfMemory>
        ensures { OnOk result (Marks self.old element self.new) }
    {
        match element {
            Some(element) => self.insert(element),
            None => Ok(()),
        }
    }

    /// Lets the element go: it comes behind the others unless it is there.
    fn insert(&mut self, element: Element) -> Result<(), OutOfMemory>
        ensures { OnOk result (Marks self.old (Some element) self.new) }
    {
        self.elements.insert(element)?;
        Ok(())
    }
}
