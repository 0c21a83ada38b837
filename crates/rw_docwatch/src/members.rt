//! The members of watches.

ghost use Rattle.std.specs.Prelude.{◌≡◌, option_map};
ghost use Rattle.serde_json.specs.View.{view};
ghost use Rattle.rw_docwatch.specs.Heads as spec;
ghost use Rattle.rw_docwatch.specs.Members.{members_of_watch};

use rw_doc::has_only;
use serde_json::Value;

/// The keys of a watch.
const WATCH_KEYS: [&str; 3] = ["monic", "name", "pattern"];

/// What is written of a watch.
#[derive(Clone, Copy)]
pub(crate) struct WatchMembers<'v> {
    pub(crate) name: &'v Value,
    pub(crate) pattern: &'v Value,
    pub(crate) monic: Option<&'v Value>,
}

/// The members of a watch, where there are no others.
pub(crate) fn watch_members(value: &Value) -> Option<WatchMembers<'_>>
    ensures { option_map members_of_watch result ≡ spec.watch_members (view value.now) }
{
    if !has_only(&WATCH_KEYS, value) {
        return None;
    }
    let name = value.get("name")?;
    let pattern = value.get("pattern")?;
    Some(WatchMembers {
        name,
        pattern,
        monic: value.get("monic"),
    })
}
