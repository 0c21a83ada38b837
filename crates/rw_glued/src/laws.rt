//! Laws on what is glued of two instances.

ghost use Rattle.rw_glued.specs.OneGluing.{GluedAreDoublePushouts, HaveOneGluing};

/// Two instances that are joined along a third have a pushout exactly where no two atoms of one class differ, and it is the
/// instance of the classes. At a clash there is not even a cocone, and the classes determine the clash. The call does
/// nothing: its contract is the law.
pub fn has_one_gluing()
    ensures { HaveOneGluing }
{}

/// Where the gluing condition holds and no atoms clash, the classes of the context and a right side are a double pushout.
/// The call does nothing: its contract is the law.
///
/// Ehrig, Pfender and Schneider, "Graph-grammars: an algebraic approach" (1973), define the step by two pushouts.
pub fn glued_are_double_pushouts()
    ensures { GluedAreDoublePushouts }
{}
