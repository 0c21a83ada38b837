//! Numbers on a command line.

ghost use Rattle.std.specs.Prelude.{◌≡◌, ◌≤◌, IfSome, slice_index};
ghost use Rattle.std.specs.Str.{all_ascii_digits};
ghost use Rattle.rw_app.specs.Commands.{fuel_of as fuel_of_word, is_numeral as is_numeral_word, number_within as number_of_word, seed_of as seed_of_word};

/// The greatest fuel.
const MOST_FUEL: u32 = 1_000_000;

/// The fuel that a word writes.
pub(crate) fn fuel_of(word: &str) -> Option<u32>
    ensures { result ≡ fuel_of_word word.now }
{
    let fuel = number_within(u64::from(MOST_FUEL), word)?;
    Some(fuel as u32)
}

/// The seed that a word writes.
pub(crate) fn seed_of(word: &str) -> Option<u64>
    ensures { result ≡ seed_of_word word.now }
{
    number_within(u64::MAX, word)
}

/// The number of at most so much that a word is the numeral of.
fn number_within(most: u64, word: &str) -> Option<u64>
    ensures value { result ≡ number_of_word most word.now }
    ensures few { IfSome result (λ number. number ≤ most) }
{
    if !is_numeral(word) {
        return None;
    }
    let number = word.parse::<u64>().ok()?;
    if number <= most { Some(number) } else { None }
}

/// Whether the word is a numeral: digits alone, and no zero before another digit.
fn is_numeral(word: &str) -> bool
    ensures { result ≡ is_numeral_word word.now }
{
    let bytes = word.as_bytes();
    are_digits(bytes) && (bytes.len() == 1 || first_of(bytes) > b'0')
}

/// Whether each byte is a digit.
fn are_digits(bytes: &[u8]) -> bool
    ensures { result ≡ all_ascii_digits bytes.now }
{
    bytes.iter().all(|byte| byte.is_ascii_digit())
}

/// The first byte, or 0 where there is none.
fn first_of(bytes: &[u8]) -> u8
    ensures { result ≡ slice_index bytes.now 0 }
{
    bytes.first().copied().unwrap_or(0)
}
