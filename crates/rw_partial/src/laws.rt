//! Laws on single pushouts.

ghost use Rattle.rw_partial.specs.OnePair.{HaveOnePair};
ghost use Rattle.rw_partial.specs.OneSinglePushout.{HaveOneSinglePushout};

/// A rule at a match has a largest fitting pair of sub-instances of the host and the right side, and only one: it is what is
/// left where nothing more has to go, and nothing went that a fitting pair can have. The call does nothing: its contract is
/// the law.
pub fn has_one_largest_pair()
    ensures { HaveOnePair }
{}

/// A gluing of the largest fitting pair is an initial partial cocone, and each of these is a pushout of the two sets of the
/// pair; under the names that it takes it is the only one, next names included. The call does nothing: its contract is the
/// law.
///
/// Löwe, "Algebraic approach to single-pushout graph transformation" (1993), defines the step by a pushout of partial
/// homomorphisms. That cells, blank or not, are elements too, which a set takes away, is this library's own.
pub fn has_one_single_pushout()
    ensures { HaveOneSinglePushout }
{}
