//! Where the value of a rule's variable is read.

ghost use Rattle.std.specs.Prelude.{◌≡◌, All, IfSome, find};
ghost use Rattle.std.specs.Option.{option_map};
ghost use Rattle.rw_pattern.specs.Matches.{wants};
ghost use Rattle.rw_redex.specs.RuleParts.{IsOnCell};

use rw_pattern::{Pattern, PatternCell, Want};

/// The first entry of a variable in the left pattern: at a match, the cell there has the variable's value.
pub fn first_entry(left: &Pattern, variable: usize) -> Option<&PatternCell>
    requires { All (IsOnCell left.now) left.now.cells }
    ensures first { option_map (λ entry. entry.now) result ≡ find (λ entry. wants variable entry.want) left.now.cells }
    ensures there { IfSome result (λ entry. IsOnCell left.now entry.now) }
{
    left.cells()
        .iter()
        .find(|entry| is_variable(variable, &entry.want))
}

/// Whether the entry wants the value of the variable.
fn is_variable(variable: usize, want: &Want) -> bool
    ensures { result ≡ wants variable want.now }
{
    match want {
        Want::Const(_) => false,
        Want::Var(other) => variable == *other as usize,
    }
}
