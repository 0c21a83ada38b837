//! Where names stand among ascending names.

ghost use Rattle.std.specs.Prelude.{◌≡◌, ◌≤◌, true, length};
ghost use Rattle.rw_spec.specs.Ascending.{ascends};
ghost use Rattle.rw_classes.specs.Places.{spot};

use rw_table::position_of;

/// Where the name stands among ascending names, or their number where it is none of them. It takes the time of a binary
/// search, and less where the names are contiguous.
pub fn spot_of(names: &[u32], name: u32) -> usize
    requires { ascends names.now ≡ true }
    ensures value { result ≡ spot names.now name }
    ensures within { result ≤ length names.now }
{
    match position_of(names, name) {
        Some(place) => place,
        None => names.len(),
    }
}
