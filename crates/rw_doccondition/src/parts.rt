//! The parts of a condition, each read by itself.

ghost use Rattle.std.specs.Prelude.{◌≡◌, IfOk, length};
ghost use Rattle.rw_schema.specs.Presentation.{signature_of};
ghost use Rattle.rw_doc.specs.Gives.{Gives};
ghost use Rattle.rw_docpattern.specs.Drafts.{IsSound, draft_seen};
ghost use Rattle.rw_doccondition.specs.Both.{both_ends, lesser as lesser_end};
ghost use Rattle.rw_doccondition.specs.Conditions as spec;
ghost use Rattle.rw_doccondition.specs.Reads.{form_seen, parts_seen};

use crate::forms::ConditionForm;
use crate::images::read_images;
use rw_doc::{Piece, ReadDocEnd};
use rw_docpattern::{Draft, draft_of, read_monic};
use rw_pattern::Pattern;
use rw_schema::{PartMap, Schema};
use std::alloc::Global;

/// A pattern without its entries beside them, of each object whether it is monic, and the images of the map.
#[derive(Drop)]
pub(crate) struct ConditionDraft {
    pub(crate) draft: Draft,
    pub(crate) monic: Vec<bool>,
    pub(crate) images: PartMap,
}

/// Want of memory, or the fault with the lesser code.
fn lesser(end: ReadDocEnd, other: ReadDocEnd) -> ReadDocEnd
    ensures { result ≡ lesser_end end other }
{
    match (end, other) {
        (ReadDocEnd::Refused(fault), ReadDocEnd::Refused(second)) => {
            if fault.code <= second.code {
                ReadDocEnd::Refused(fault)
            } else {
                ReadDocEnd::Refused(second)
            }
        }
        _ => ReadDocEnd::OutOfMemory,
    }
}

/// What both readings give, or their end.
fn both<A: Drop, B: Drop>(
    first: Result<A, ReadDocEnd>,
    second: Result<B, ReadDocEnd>,
) -> Result<(A, B), ReadDocEnd>
    ensures { result ≡ both_ends first second }
{
    match first {
        Ok(one) => match second {
            Ok(two) => Ok((one, two)),
            Err(other) => Err(other),
        },
        Err(end) => match second {
            Ok(_two) => Err(end),
            Err(other) => Err(lesser(end, other)),
        },
    }
}

/// The parts of a condition with this left side: the least code of what is wrong with them, but for what its map and its
/// variables have to do with the left side.
pub(crate) fn parts_of(
    alloc: Global,
    schema: &Schema,
    piece: Piece,
    left: &Pattern,
    form: ConditionForm,
) -> Result<ConditionDraft, ReadDocEnd>
    ensures gives { Gives parts_seen result (spec.parts_of schema.now piece left.now (form_seen form)) }
    ensures sound { IfOk result (λ parts. IsSound schema.now (draft_seen parts.draft)) }
    ensures long { IfOk result (λ parts. length parts.monic.items ≡ length schema.now.objects) }
{
    let ConditionForm {
        positive: _,
        pattern,
        images,
        monic,
    } = form;
    let sizes = pattern.sizes.as_slice().to_vec(alloc)?;
    let draft = draft_of(alloc, schema, piece, pattern);
    let monic = read_monic(alloc, schema, piece, monic.as_slice());
    let images = read_images(schema, piece, left, sizes.as_slice(), images);
    let (draft, (monic, images)) = both(draft, both(monic, images))?;
    Ok(ConditionDraft {
        draft,
        monic,
        images,
    })
}
