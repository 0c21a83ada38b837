//! Laws that tie the computed matches to maps.

ghost use Rattle.rw_schema.specs.Presentation.{signature_of};
ghost use Rattle.rw_pattern.specs.Matches.{MatchesAreMaps, MatchesAscend, ValuesAreRead};
ghost use Rattle.rw_pattern.specs.PatternFaults.{IsPatternOf};

use crate::Pattern;
use rw_schema::Schema;

/// The list of a pattern's matches has exactly the tuples that are natural maps, meet the cells by some values of the
/// variables, and are injective on monic objects, in every instance; these values are read off the tuple; and where the
/// names ascend, so do the matches, each once. The call does nothing: its contract is the law.
pub fn matches_are_maps(schema: &Schema, pattern: &Pattern, monic: &[bool])
    requires { IsPatternOf (signature_of schema.now) pattern.now }
    ensures matches { MatchesAreMaps (signature_of schema.now) pattern.now monic.now }
    ensures values { ValuesAreRead pattern.now }
    ensures ascend { MatchesAscend (signature_of schema.now) pattern.now monic.now }
{}
