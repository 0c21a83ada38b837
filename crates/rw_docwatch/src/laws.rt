//! Laws that tell what the first faults of watches are.

ghost use Rattle.rw_docwatch.specs.WatchCodes.{FirstWatchFault, FirstWatchesFault};

/// A reading of a watch gives a value where nothing is wrong with its pieces, and else the least code of the first piece
/// with a fault; one of the list of watches tells the list's own fault, or that of the first watch with one. The call does
/// nothing: its contract is the law.
pub fn watches_tell_first()
    ensures watch { FirstWatchFault }
    ensures list { FirstWatchesFault }
{}
