ghost use Rattle.std.specs.Prelude.{◌≡◌, ◌<◌, ◌^◌, ℕ, IfSome, Some};
ghost use Rattle.std.specs.List.{list_all};
ghost use Rattle.std.specs.Char.{is_ascii_digit};
ghost use Rattle.std.specs.Fmt.{decimal};
ghost use Rattle.base_spelling.specs.Numbers.{begins_with_zero, is_number, number_in};

use std::str;

fn are_digits(text: &[u8]) -> bool
    ensures { result ≡ list_all is_ascii_digit text.now }
{
    text.iter().all(|b| b.is_ascii_digit())
}

fn begins_with_zero(text: &[u8]) -> bool
    ensures { result ≡ begins_with_zero text.now }
{
    match text {
        [d, ..] => *d == b'0',
        [] => false,
    }
}

fn is_number(text: &[u8]) -> bool
    ensures { result ≡ is_number text.now }
{
    are_digits(text) && (1 <= text.len() && (text.len() <= 1 || !begins_with_zero(text)))
}

fn number_of(text: &[u8]) -> Option<u64>
    ensures { result ≡ number_in text.now }
{
    if !is_number(text) {
        return None;
    }
    let Ok(digits) = str::from_utf8(text) else {
        return None;
    };
    match digits.parse::<u64>() {
        Ok(n) => Some(n),
        Err(_) => None,
    }
}

/// The number that the bytes spell in decimal digits without leading zeros; None where they spell none below 2 ^ 64. It
/// takes no memory.
pub fn read_number(text: &[u8]) -> Option<u64>
    ensures exact { result ≡ number_in text.now }
    ensures given { IfSome result (λ n. text.now ≡ decimal n) }
    ensures only { (n : ℕ) → n < 2 ^ 64 → text.now ≡ decimal n → result ≡ Some n }
{
    number_of(text)
}
