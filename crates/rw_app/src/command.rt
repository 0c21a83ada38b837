//! The commands and their words.

ghost use Rattle.std.specs.Prelude.{◌≡◌, ◌∷◌, codes, map, string_bytes};
ghost use Rattle.std.specs.Option.{option_map};
ghost use Rattle.rw_app.specs.Commands.{asked_for, request_of, with_both as with_both_options, with_option as with_one_option};

use crate::number::{fuel_of, seed_of};

/// What the words ask for.
#[derive(Clone, Copy, Debug)]
pub enum Command<'a> {
    /// The matches of the rule or the watch with the name.
    Matches(&'a str),
    /// A run with so much fuel, by the stream of the seed. No box draws from the stream yet.
    Run { fuel: u32, seed: u64 },
    /// The lengths of the kept lists, and the numbers of parts.
    Check,
    /// The pushout of the span.
    Pushout,
    /// The pullback of the cospan.
    Pullback,
}

/// The line that is written where the words are those of no command.
pub const USAGE: &str =
    "usage: rewrite matches NAME | run [--fuel N] [--seed N] | check | pushout | pullback | sample N\n";

/// The fuel of a run where no other is asked for.
const USUAL_FUEL: u32 = 1_000;

/// The command that the words ask for, if they are those of one.
pub(crate) fn command_of(words: &Vec<String>) -> Option<Command<'_>>
    ensures { option_map asked_for result ≡ request_of (map string_bytes words.now.items) }
{
    let (word, others) = words.as_slice().split_first()?;
    match word.as_str() {
        "matches" => matches_command(others),
        "run" => run_command(others),
        "check" => check_command(others),
        "pushout" => pushout_command(others),
        "pullback" => pullback_command(others),
        _ => None,
    }
}

/// The command `matches` with these words behind it: one, the name.
fn matches_command(words: &[String]) -> Option<Command<'_>>
    ensures { option_map asked_for result ≡ request_of (codes "matches" ∷ map string_bytes words.now) }
{
    match words {
        [name] => Some(Command::Matches(name.as_str())),
        _ => None,
    }
}

/// The command `check` with these words behind it: none.
fn check_command<'a>(words: &[String]) -> Option<Command<'a>>
    ensures { option_map asked_for result ≡ request_of (codes "check" ∷ map string_bytes words.now) }
{
    match words {
        [] => Some(Command::Check),
        _ => None,
    }
}

/// The command `pushout` with these words behind it: none.
fn pushout_command<'a>(words: &[String]) -> Option<Command<'a>>
    ensures { option_map asked_for result ≡ request_of (codes "pushout" ∷ map string_bytes words.now) }
{
    match words {
        [] => Some(Command::Pushout),
        _ => None,
    }
}

/// The command `pullback` with these words behind it: none.
fn pullback_command<'a>(words: &[String]) -> Option<Command<'a>>
    ensures { option_map asked_for result ≡ request_of (codes "pullback" ∷ map string_bytes words.now) }
{
    match words {
        [] => Some(Command::Pullback),
        _ => None,
    }
}

/// The command `run` with these words behind it: options, each with its number.
fn run_command<'a>(words: &[String]) -> Option<Command<'a>>
    ensures { option_map asked_for result ≡ request_of (codes "run" ∷ map string_bytes words.now) }
{
    match words {
        [] => Some(Command::Run {
            fuel: USUAL_FUEL,
            seed: 0,
        }),
        [option, number] => with_option(option.as_str(), number.as_str()),
        [first, fuel, second, seed] => with_both(
            first.as_str(),
            fuel.as_str(),
            second.as_str(),
            seed.as_str(),
        ),
        _ => None,
    }
}

/// A run with one option.
fn with_option<'a>(option: &str, number: &str) -> Option<Command<'a>>
    ensures { option_map asked_for result ≡ with_one_option option.now number.now }
{
    match option {
        "--fuel" => Some(Command::Run {
            fuel: fuel_of(number)?,
            seed: 0,
        }),
        "--seed" => Some(Command::Run {
            fuel: USUAL_FUEL,
            seed: seed_of(number)?,
        }),
        _ => None,
    }
}

/// A run with both options.
fn with_both<'a>(first: &str, fuel: &str, second: &str, seed: &str) -> Option<Command<'a>>
    ensures { option_map asked_for result ≡ with_both_options first.now fuel.now second.now seed.now }
{
    if first != "--fuel" || second != "--seed" {
        return None;
    }
    let fuel = fuel_of(fuel)?;
    let seed = seed_of(seed)?;
    Some(Command::Run { fuel, seed })
}
