//! Laws on final pullback complements.

ghost use Rattle.rw_copies.specs.Laws.{CopiesAreCounted, CopyingsAreFinal, FinalComplementsAreIsomorphic, HaveOneCopyContext, HaveOneTooLarge, LargestKeptAreContexts};

/// An instance that has over each part of an injective match the kept parts, and over each other host part one copy for each
/// choice of what its arrows lead to, is a final pullback complement, whatever competes with it. The call does nothing: its
/// contract is the law.
///
/// Corradini, Heindel, Hermann and König, "Sesqui-Pushout Rewriting" (2006), define the context of a step by a final pullback
/// complement.
pub fn copyings_are_final()
    ensures { CopyingsAreFinal }
{}

/// Two final pullback complements of one redex are the same but for names. The call does nothing: its contract is the law.
pub fn final_complements_are_isomorphic()
    ensures { FinalComplementsAreIsomorphic }
{}

/// A redex at an injective match, over a schema in which no arrows lead round a cycle, has a final pullback complement under
/// the names of a step, and it is the only one, names and next names included. The call does nothing: its contract is the law.
pub fn has_one_copy_context()
    ensures { HaveOneCopyContext }
{}

/// Where the left map is injective too, the largest set of host parts that the arrows do not leave and that has of the match
/// what is kept alone is a final pullback complement, and under the names of a step it is the only one, over any schema. The
/// call does nothing: its contract is the law.
pub fn largest_kept_is_context()
    ensures { LargestKeptAreContexts }
{}

/// Where no equation starts at an object, the copies of a host part are as many as the product, over the arrows that leave the
/// object, of the numbers of parts that they may lead to; and of the parts over a host part all but one take new names. The
/// call does nothing: its contract is the law.
pub fn copies_are_counted()
    ensures { CopiesAreCounted }
{}

/// Once each object of a schema has been placed within a limit on names, or counted past it, or leads to one that was, the
/// least that was counted past the limit is where the step is too large, and where none was, it is not too large. The call does
/// nothing: its contract is the law.
pub fn has_one_too_large()
    ensures { HaveOneTooLarge }
{}
