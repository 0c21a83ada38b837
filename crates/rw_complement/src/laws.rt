//! Laws on pushout complements and double pushouts.

ghost use Rattle.rw_complement.specs.Named.{HaveOneDoublePushout};
ghost use Rattle.rw_complement.specs.OneContext.{HaveOneContext};

/// A redex has a pushout complement exactly where the gluing condition holds, and then the host without what is removed is
/// the least. The call does nothing: its contract is the law.
///
/// Ehrig, Pfender and Schneider, "Graph-grammars: an algebraic approach" (1973), have the gluing condition; Ehrig, Ehrig,
/// Prange and Taentzer, "Fundamentals of Algebraic Graph Transformation" (2006), have it with its two halves,
/// identification and dangling. That complements are compared, and the least is taken, is needed since cells may be blank:
/// a complement may keep an atom that another leaves out.
pub fn has_one_context()
    ensures { HaveOneContext }
{}

/// What the context and a right side are glued to is determined, names and next names included. The call does nothing: its
/// contract is the law.
pub fn has_one_double_pushout()
    ensures { HaveOneDoublePushout }
{}
