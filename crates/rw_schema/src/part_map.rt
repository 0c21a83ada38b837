//! Maps between the parts of two patterns or instances.

ghost use Rattle.std.specs.Prelude.{◌≡◌, ◌<◌, length, map, slice_index};
ghost use Rattle.rw_schema.specs.RowLists.{list_at};

use crate::ObjectId;
use std::marker::Model;

/// A map of parts: of each object the list of the images, one for each part of its source. Whether it is a
/// map between two given things is not looked at here.
#[derive(Drop)]
pub struct PartMap {
    images: Vec<Vec<u32>>,
}

impl Model for PartMap {
    ghost use Rattle.std.specs.Prelude.{List, ℕ, map};

    ghost Value = { List (List ℕ) };

    ghost view = { λ part_map. map (λ list. list.items) part_map.images.items };
}

impl PartMap {
    pub fn from_lists(images: Vec<Vec<u32>>) -> PartMap
        ensures { result ≡ map (λ list. list.items) images.items }
    {
        PartMap { images }
    }

    /// The images of an object's parts.
    pub fn images(&self, object: ObjectId) -> &[u32]
        requires { object.0 < length self.now }
        ensures { result.now ≡ list_at self.now object.0 }
    {
        self.images[object.0 as usize].as_slice()
    }

    /// The image of the part at a position.
    pub fn image(&self, object: ObjectId, position: usize) -> u32
        requires object { object.0 < length self.now }
        requires position { position < length (list_at self.now object.0) }
        ensures { result ≡ slice_index (list_at self.now object.0) position }
    {
        self.images(object)[position]
    }

    /// The number of lists.
    pub fn lists(&self) -> usize
        ensures { result ≡ length self.now }
    {
        self.images.len()
    }
}
