//! The two columns of the white space that a line begins with.

ghost use Rattle.std.specs.Prelude.{◌≡◌, ◌≤◌, ◌<◌, ◌^◌, length};
ghost use Rattle.py_lexer.specs.Chars.{is_white};
ghost use Rattle.py_lexer.specs.Columns.{advanced, leading, margin};

use crate::chars::is_white;

/// How far a line is indented: a tab goes to the next multiple of 8 in the first, and counts 1 in the second.
#[derive(Clone, Copy)]
pub struct Columns {
    pub first: u64,
    pub second: u64,
}

fn advanced(columns: Columns, c: char) -> Columns
    requires first { columns.first < 2 ^ 63 }
    requires second { columns.second < 2 ^ 63 }
    ensures { result ≡ advanced columns c }
{
    if c == '\t' {
        Columns {
            first: columns.first / 8 * 8 + 8,
            second: columns.second + 1,
        }
    } else if c == '\u{c}' {
        Columns {
            first: 0,
            second: 0,
        }
    } else {
        Columns {
            first: columns.first + 1,
            second: columns.second + 1,
        }
    }
}

/// The columns of the leading white space, and what follows it.
#[tactic(auto, unfolding(crate::specs::Columns::leading))]
pub fn leading(chars: &[char]) -> (Columns, &[char])
    requires { length chars.now < 2 ^ 32 }
    ensures value { (result.0, result.1.now) ≡ leading margin chars.now }
    ensures shorter { length result.1.now ≤ length chars.now }
{
    let mut columns = Columns {
        first: 0,
        second: 0,
    };
    let mut rest = chars;
    'white: while let [c, after @ ..] = rest {
        if !is_white(*c) {
            break;
        }
        columns = advanced(columns, *c);
        rest = after;
    }
    (columns, rest)
}
