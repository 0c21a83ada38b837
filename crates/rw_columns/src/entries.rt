//! Entries that stand beside ascending names.

ghost use Rattle.std.specs.Prelude.{◌≡◌, ◌==◌, true, position};
ghost use Rattle.std.specs.List.{list_any};
ghost use Rattle.rw_spec.specs.Ascending.{ascends};
ghost use Rattle.rw_columns.specs.Changes.{entry_names};

/// Where the entry of the name stands among entries whose names ascend, by binary search.
pub fn place_of_entry<A>(entries: &[(u32, A)], name: u32) -> Option<usize>
    requires { ascends (entry_names entries.now) ≡ true }
    ensures { result ≡ position (λ other. other == name) (entry_names entries.now) }
{
    entries.binary_search_by_key(&name, |entry| entry.0).ok()
}

/// Whether the name has an entry among entries whose names ascend.
pub fn has_entry<A>(entries: &[(u32, A)], name: u32) -> bool
    requires { ascends (entry_names entries.now) ≡ true }
    ensures { result ≡ list_any (λ other. other == name) (entry_names entries.now) }
{
    place_of_entry(entries, name).is_some()
}
