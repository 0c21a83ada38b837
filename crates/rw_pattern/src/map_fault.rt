//! Why images are no map of patterns.

use rw_schema::{ArrowId, ObjectId};
use thiserror::Error;

/// Why `check_map` refuses images: the first of these that holds, at its least place.
#[derive(Clone, Copy, Debug, PartialEq, Eq, Error)]
pub enum MapFault {
    /// An object has not one image for each part.
    #[error("a list has a wrong length")]
    Shape,
    /// The image of the part is no part of the other pattern.
    #[error("an image is not there")]
    Range { object: ObjectId, part: u32 },
    /// The map does not commute with the arrow at the part.
    #[error("the map does not commute with an arrow")]
    NotNatural { arrow: ArrowId, part: u32 },
}
