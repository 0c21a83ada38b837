//! Laws that tell what the first faults of pieces are.

ghost use Rattle.rw_docpattern.specs.MapCodes.{FirstMapFault, FirstMonicFault};
ghost use Rattle.rw_docpattern.specs.PatternCodes.{FirstBareFault, FirstPatternFault, FirstRightFault};

/// A reading of a pattern gives a value where nothing is wrong with it, and else the least of the codes whose conditions
/// hold of it; so does one of a kept pattern, which has no entries, and one of a right pattern, whose entries set cells.
/// The call does nothing: its contract is the law.
pub fn patterns_tell_first()
    ensures bare { FirstBareFault }
    ensures pattern { FirstPatternFault }
    ensures right { FirstRightFault }
{}

/// So do a reading of a map between patterns and one of the names of monic objects. The call does nothing: its contract
/// is the law.
pub fn maps_tell_first()
    ensures map { FirstMapFault }
    ensures monic { FirstMonicFault }
{}
