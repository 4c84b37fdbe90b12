//! What stands between tokens.

ghost use Rattle.std.specs.Prelude.{◌≡◌, ◌≤◌, ◌<◌, Option, Some, None, length, IfSome, if◌then◌else◌};
ghost use Rattle.py_lexer.specs.Options.{map_option};
ghost use Rattle.py_lexer.specs.Chars.{is_end};
ghost use Rattle.py_lexer.specs.Reading as reading;

use crate::chars::{Class, class_of, is_end};

/// What stands between tokens.
#[derive(Clone, Copy)]
pub enum Gap {
    /// White space or a comment.
    Blank,
    /// A backslash with the line end that it hides.
    Joined,
    /// A line end.
    Ended,
}

/// What follows a line end that begins with `c`.
#[tactic(auto, unfolding(crate::specs::Reading::after_end))]
pub fn after_end(c: char, chars: &[char]) -> &[char]
    ensures value { result.now ≡ reading.after_end c chars.now }
    ensures shorter { length result.now ≤ length chars.now }
{
    match chars {
        ['\n', rest @ ..] if c == '\r' => rest,
        _ => chars,
    }
}

#[tactic(auto, unfolding(crate::specs::Reading::after_comment))]
fn after_comment(chars: &[char]) -> &[char]
    ensures value { result.now ≡ reading.after_comment chars.now }
    ensures shorter { length result.now ≤ length chars.now }
{
    let mut rest = chars;
    'comment: while let [c, after @ ..] = rest {
        if is_end(*c) {
            break;
        }
        rest = after;
    }
    rest
}

#[tactic(auto, unfolding(crate::specs::Reading::after_join))]
fn after_join(chars: &[char]) -> Option<(Gap, &[char])>
    ensures value { map_option (λ p. (p.0, p.1.now)) result ≡ reading.after_join chars.now }
    ensures shorter { IfSome result (λ p. length p.1.now < length chars.now) }
{
    match chars {
        [c, rest @ ..] if is_end(*c) => Some((Gap::Joined, after_end(*c, rest))),
        _ => None,
    }
}

/// What stands between tokens at the front, and what follows it.
#[tactic(auto, unfolding(crate::specs::Reading::gap))]
pub fn gap_at(chars: &[char]) -> Option<(Gap, &[char])>
    ensures value { map_option (λ p. (p.0, p.1.now)) result ≡ reading.gap chars.now }
    ensures shorter { IfSome result (λ p. length p.1.now < length chars.now) }
{
    let [c, rest @ ..] = chars else {
        return None;
    };
    match class_of(*c) {
        Class::White => Some((Gap::Blank, rest)),
        Class::Hash => Some((Gap::Blank, after_comment(rest))),
        Class::LineEnd => Some((Gap::Ended, after_end(*c, rest))),
        Class::Backslash => after_join(rest),
        _ => None,
    }
}
