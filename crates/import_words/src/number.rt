//! Numbers among the words.
ghost use Rattle.std.specs.Prelude.{◌≡◌, ◌<◌};
ghost use Rattle.std.specs.Char.{is_ascii_digit};
ghost use Rattle.std.specs.List.{list_all};
ghost use Rattle.import_words.specs.Plans.{digits_of, within, number_of, fuel_of};

use base_types::Text;

fn are_digits(word: &str) -> bool
    ensures { result ≡ list_all is_ascii_digit word.now }
{
    word.bytes().all(|b| b.is_ascii_digit())
}

/// The number that one to so many digits spell.
pub(crate) fn digits_of(most: usize, word: &str) -> Option<u64>
    requires { most < 19 }
    ensures { result ≡ digits_of most word.now }
{
    if !are_digits(word) {
        return None;
    }
    if word.is_empty() {
        return None;
    }
    if word.len() > most {
        return None;
    }
    match word.parse::<u64>() {
        Ok(n) => Some(n),
        Err(_) => None,
    }
}

fn within(low: u64, high: u64, n: u64) -> Option<u64>
    ensures { result ≡ within low high n }
{
    if low <= n && n <= high { Some(n) } else { None }
}

/// A number of at most so many digits in a range.
pub(crate) fn number_of(most: usize, low: u64, high: u64, word: &str) -> Option<u64>
    requires { most < 19 }
    ensures { result ≡ number_of most low high word.now }
{
    match digits_of(most, word) {
        Some(n) => within(low, high, n),
        None => None,
    }
}

/// The budget that `--fuel` gives, or the usual one.
pub(crate) fn fuel_of(digits: &Option<Text>) -> Option<u64>
    ensures { result ≡ fuel_of digits.now }
{
    match digits {
        Some(digits) => number_of(7, 1, 2_000_000, digits.as_str()),
        None => Some(1_000_000),
    }
}
