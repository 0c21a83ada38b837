//! A law that ties the faults of lists to instances.

ghost use Rattle.rw_table.specs.Unfaulted.{UnfaultedAreTables};

/// Lists have no fault exactly where they have the right shape, their names ascend below the next names, and the sets and
/// functions that they stand for are an instance. The call does nothing: its contract is the law.
pub fn unfaulted_are_tables()
    ensures { UnfaultedAreTables }
{}
