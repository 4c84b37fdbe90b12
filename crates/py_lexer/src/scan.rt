//! The whole text, piece by piece.

ghost use Rattle.std.specs.Prelude.{◌≡◌, ◌≤◌, ◌<◌, ◌+◌, ◌^◌, ◌++◌, List, [], ◌∷◌, length, map, IfOk, Ok};
ghost use Rattle.py_lexer.specs.TokenList.{mark, marks, dedents, closing, depth_after};
ghost use Rattle.py_lexer.specs.Outcome.{GivesAt, WithinWord, word_view};
ghost use Rattle.py_lexer.specs.Scanning.{state_of, at_line, Stops, Comes, depth_of};
ghost use Rattle.py_lexer.specs.Reading as reading;

use crate::chars::{Class, class_of};
use crate::columns::{Columns, leading};
use crate::error::{Fault, Kind, ScanError, WordError};
use crate::gap::{Gap, gap_at};
use crate::indent::{Change, settle};
use crate::names::name;
use crate::number::number;
use crate::operator::operator;
use crate::quoted::quoted;
use crate::word::{Tok, Token, Word};
use base_types::Seq;
use std::alloc::Global;

/// Where the scanner stands in a logical line.
#[derive(Clone, Copy)]
pub enum Mode {
    /// Before its first token; with its columns, and the line that they stand in.
    Fresh(Columns, u32),
    /// Behind a token, with so many open brackets.
    Inside(u32),
}

/// What was read.
#[derive(Drop)]
pub struct Scanner {
    /// The open columns, the innermost last.
    pub stack: Vec<Columns>,
    pub mode: Mode,
    pub line: u32,
    pub out: Seq<Token>,
}

/// The token at the front, and what follows it.
#[tactic(auto, unfolding(crate::specs::Reading::word))]
fn word(alloc: Global, chars: &[char]) -> Result<(Word, &[char]), WordError>
    requires { length chars.now < 2 ^ 32 }
    ensures value { GivesAt word_view result (reading.word chars.now) }
    ensures within { WithinWord chars.now result }
{
    let [c, ..] = chars else {
        return Err(WordError::Bad(Kind::BadChar));
    };
    match class_of(*c) {
        Class::Digit => number(chars),
        Class::Quote => quoted(alloc, chars),
        Class::Letter => name(alloc, chars),
        Class::Other => operator(alloc, chars),
        _ => Err(WordError::Bad(Kind::BadChar)),
    }
}

/// The error with its line.
fn at_line(error: WordError, line: u32) -> ScanError
    ensures { result ≡ at_line error line }
{
    match error {
        WordError::Memory => ScanError::NoMemory,
        WordError::Bad(kind) => ScanError::Refused(Fault { kind, line }),
    }
}

/// The open brackets after a token.
fn depth_after(tok: &Tok, depth: u32) -> u32
    requires { depth < 2 ^ 31 }
    ensures value { result ≡ depth_after tok.now depth }
    ensures within { result ≤ depth + 1 }
{
    let Tok::Op(text) = tok else {
        return depth;
    };
    match text.as_bytes() {
        [b'(' | b'[' | b'{'] => depth + 1,
        [b')' | b']' | b'}'] => depth.saturating_sub(1),
        _ => depth,
    }
}

/// Puts `count` Dedents at the end of the tokens.
fn push_dedents(out: &mut Seq<Token>, count: usize, line: u32) -> Result<(), ScanError>
    ensures { Comes (λ _. out.new) result (Ok (out.old ++ dedents count line)) }
{
    let mut left = count;
    'levels: while left > 0 {
        out.push(Token {
            kind: Tok::Dedent,
            line,
        })?;
        left -= 1;
    }
    Ok(())
}

/// Puts what a change of the open columns gives at the end of the tokens.
fn push_marks(out: &mut Seq<Token>, change: Change, line: u32) -> Result<(), ScanError>
    ensures { Comes (λ _. out.new) result (Ok (out.old ++ marks change line)) }
{
    match change {
        Change::Indent => {
            out.push(Token {
                kind: Tok::Indent,
                line,
            })?;
            Ok(())
        }
        Change::Dedents(count) => push_dedents(out, count, line),
    }
}

impl Scanner {
    /// Reads the columns of a line.
    #[tactic(auto, unfolding(crate::specs::Reading::start))]
    fn start<'a>(&mut self, chars: &'a [char]) -> &'a [char]
        requires { length chars.now < 2 ^ 32 }
        ensures value { reading.start (state_of self.old) chars.now ≡ (state_of self.new, result.now) }
        ensures shorter { length result.now ≤ length chars.now }
        ensures same { self.new.line ≡ self.old.line }
        ensures kept { self.new.stack.items ≡ self.old.stack.items }
        ensures fresh { depth_of self.new.mode ≡ 0 }
    {
        let (columns, rest) = leading(chars);
        self.mode = Mode::Fresh(columns, self.line);
        rest
    }

    /// Goes past what stands between tokens.
    #[tactic(auto, unfolding(crate::specs::Reading::pass))]
    fn pass<'a>(&mut self, gap: Gap, chars: &'a [char]) -> Result<&'a [char], ScanError>
        requires room { self.old.line + length chars.now < 2 ^ 31 }
        ensures value { Comes (λ rest. (state_of self.new, rest.now)) result
            (Ok (reading.pass gap (state_of self.old) chars.now)) }
        ensures shorter { IfOk result (λ rest. length rest.now ≤ length chars.now) }
        ensures kept { self.new.stack.items ≡ self.old.stack.items }
        ensures lines { self.new.line ≤ self.old.line + 1 }
        ensures depths { depth_of self.new.mode ≤ depth_of self.old.mode }
    {
        match gap {
            Gap::Blank => Ok(chars),
            Gap::Joined => {
                self.line += 1;
                Ok(chars)
            }
            Gap::Ended => self.end_line(chars),
        }
    }

    /// Goes past a line end.
    #[tactic(auto, unfolding(crate::specs::Reading::pass))]
    fn end_line<'a>(&mut self, chars: &'a [char]) -> Result<&'a [char], ScanError>
        requires room { self.old.line + length chars.now < 2 ^ 31 }
        ensures value { Comes (λ rest. (state_of self.new, rest.now)) result
            (Ok (reading.pass Gap.Ended (state_of self.old) chars.now)) }
        ensures shorter { IfOk result (λ rest. length rest.now ≤ length chars.now) }
        ensures kept { self.new.stack.items ≡ self.old.stack.items }
        ensures lines { self.new.line ≤ self.old.line + 1 }
        ensures depths { depth_of self.new.mode ≤ depth_of self.old.mode }
    {
        match self.mode {
            Mode::Fresh(_, _) => {
                self.line += 1;
                Ok(self.start(chars))
            }
            Mode::Inside(0) => {
                self.out.push(Token {
                    kind: Tok::Newline,
                    line: self.line,
                })?;
                self.line += 1;
                Ok(self.start(chars))
            }
            Mode::Inside(_) => {
                self.line += 1;
                Ok(chars)
            }
        }
    }

    /// Opens or closes levels before the first token of a logical line.
    #[tactic(auto, unfolding(crate::specs::Reading::begin))]
    fn begin(&mut self) -> Result<(), ScanError>
        requires open { 0 < length self.old.stack.items }
        ensures value { Comes (λ _. state_of self.new) result (reading.begin (state_of self.old)) }
        ensures open { IfOk result (λ _. 0 < length self.new.stack.items) }
        ensures same { self.new.line ≡ self.old.line }
        ensures depths { depth_of self.new.mode ≤ depth_of self.old.mode }
    {
        let Mode::Fresh(columns, first) = self.mode else {
            return Ok(());
        };
        match settle(&mut self.stack, columns) {
            Ok(change) => {
                self.mode = Mode::Inside(0);
                push_marks(&mut self.out, change, self.line)
            }
            Err(error) => Err(at_line(error, first)),
        }
    }

    /// Takes a token.
    #[tactic(auto, unfolding(crate::specs::Reading::put))]
    fn put(&mut self, word: Word) -> Result<(), ScanError>
        requires lines { self.old.line + word.lines < 2 ^ 31 }
        requires depths { depth_of self.old.mode < 2 ^ 31 }
        ensures value { Comes (λ _. state_of self.new) result (Ok (reading.put (state_of self.old) (word_view word))) }
        ensures same { self.new.stack.items ≡ self.old.stack.items }
        ensures lines { self.new.line ≤ self.old.line + word.lines }
        ensures depths { depth_of self.new.mode ≤ depth_of self.old.mode + 1 }
    {
        if let Mode::Inside(depth) = self.mode {
            self.mode = Mode::Inside(depth_after(&word.tok, depth));
        }
        self.out.push(Token {
            kind: word.tok,
            line: self.line,
        })?;
        self.line += word.lines;
        Ok(())
    }

    /// Takes the token at the front, with the start of its logical line.
    #[tactic(auto, unfolding(crate::specs::Reading::take_word))]
    fn take_word<'a>(&mut self, alloc: Global, chars: &'a [char]) -> Result<&'a [char], ScanError>
        requires open { 0 < length self.old.stack.items }
        requires lines { self.old.line + length chars.now < 2 ^ 31 }
        requires depths { depth_of self.old.mode + length chars.now < 2 ^ 31 }
        ensures value { Comes (λ rest. (state_of self.new, rest.now)) result
            (reading.take_word (state_of self.old) chars.now) }
        ensures open { IfOk result (λ _. 0 < length self.new.stack.items) }
        ensures shorter { IfOk result (λ rest. length rest.now < length chars.now) }
        ensures lines { IfOk result (λ rest. self.new.line + length rest.now ≤ self.old.line + length chars.now) }
        ensures depths { IfOk result
            (λ rest. depth_of self.new.mode + length rest.now ≤ depth_of self.old.mode + length chars.now) }
    {
        self.begin()?;
        match word(alloc, chars) {
            Ok((word, rest)) => {
                self.put(word)?;
                Ok(rest)
            }
            Err(error) => Err(at_line(error, self.line)),
        }
    }

    /// Goes one piece further.
    #[tactic(auto, unfolding(crate::specs::Reading::step))]
    fn step<'a>(&mut self, alloc: Global, chars: &'a [char]) -> Result<&'a [char], ScanError>
        requires open { 0 < length self.old.stack.items }
        requires lines { self.old.line + length chars.now < 2 ^ 31 }
        requires depths { depth_of self.old.mode + length chars.now < 2 ^ 31 }
        ensures value { Comes (λ rest. (state_of self.new, rest.now)) result
            (reading.step (state_of self.old) chars.now) }
        ensures open { IfOk result (λ _. 0 < length self.new.stack.items) }
        ensures shorter { IfOk result (λ rest. length rest.now < length chars.now) }
        ensures lines { IfOk result (λ rest. self.new.line + length rest.now ≤ self.old.line + length chars.now) }
        ensures depths { IfOk result
            (λ rest. depth_of self.new.mode + length rest.now ≤ depth_of self.old.mode + length chars.now) }
    {
        match gap_at(chars) {
            Some((gap, rest)) => self.pass(gap, rest),
            None => self.take_word(alloc, chars),
        }
    }

    /// The tokens, with those at the end of the text.
    #[tactic(auto, unfolding(crate::specs::Reading::finish))]
    fn finish(mut self) -> Result<Seq<Token>, ScanError>
        requires open { 0 < length self.stack.items }
        ensures value { Comes (λ tokens. tokens) result (Ok (reading.finish (state_of self))) }
    {
        if let Mode::Inside(0) = self.mode {
            self.out.push(Token {
                kind: Tok::Newline,
                line: self.line,
            })?;
        }
        push_dedents(&mut self.out, self.stack.len() - 1, self.line)?;
        self.out.push(Token {
            kind: Tok::End,
            line: self.line,
        })?;
        let Scanner {
            stack: _,
            mode: _,
            line: _,
            out,
        } = self;
        Ok(out)
    }
}

/// Before the first line.
#[tactic(auto, unfolding(crate::specs::Reading::first_state))]
fn first_state(alloc: Global) -> Result<Scanner, ScanError>
    ensures value { Comes state_of result (Ok reading.first_state) }
    ensures opened { IfOk result (λ s. 0 < length s.stack.items) }
    ensures line { IfOk result (λ s. s.line ≡ 1) }
{
    let margin = Columns {
        first: 0,
        second: 0,
    };
    let mut stack = Vec::new(alloc);
    stack.push(margin)?;
    Ok(Scanner {
        stack,
        mode: Mode::Fresh(margin, 1),
        line: 1,
        out: Seq::new(alloc),
    })
}

/// The tokens of the text.
#[tactic(auto, unfolding(crate::specs::Reading::scan_text, crate::specs::Reading::scan))]
pub fn scan(alloc: Global, chars: &[char]) -> Result<Seq<Token>, ScanError>
    requires { length chars.now < 2 ^ 30 }
    ensures { Comes (λ tokens. tokens) result (reading.scan_text chars.now) }
{
    let mut scanner = first_state(alloc)?;
    let mut rest = scanner.start(chars);
    'pieces: while let [_, ..] = rest {
        match scanner.step(alloc, rest) {
            Ok(after) => rest = after,
            Err(error) => return Err(error),
        }
    }
    scanner.finish()
}
