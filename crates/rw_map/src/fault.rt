//! Why lists of images are no homomorphism.

use rw_schema::{ArrowId, AttrId, ObjectId};
use thiserror::Error;

/// Why `Hom::check` refuses images: the first of these that holds, at its least place. A position is one in the list
/// of the object's parts, of the arrow's source or of the attribute's object.
#[derive(Clone, Copy, Debug, PartialEq, Eq, Error)]
pub enum HomFault {
    /// The object has not one image for each part.
    #[error("a list has a wrong length")]
    Shape { object: ObjectId },
    /// The image at the position is no name of the target.
    #[error("an image is not there")]
    Range { object: ObjectId, position: u32 },
    /// The map does not commute with the arrow at the part.
    #[error("the map does not commute with an arrow")]
    NotNatural { arrow: ArrowId, part: u32 },
    /// The part has an atom, and its image has not the same.
    #[error("the map does not keep an atom")]
    Cell { attr: AttrId, part: u32 },
}
