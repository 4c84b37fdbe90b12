//! The words of a row.
ghost use Rattle.std.specs.Prelude.{◌≡◌, ◌==◌, ◌∷◌, ◌≤◌, [], Some, IfNone, IfOk, OnOk, OnErr, IfSome, MatchBool, true, false, length, drop, take};
ghost use Rattle.rows_words.specs.Rows.{without_blanks, behind_blank, begins, left_behind, is_name_byte, behind_word, behind_name, word_len, name_len};
ghost use Rattle.base_spelling.specs.Numbers.{number_in};

use base_spelling::{read_number, read_quoted, read_source};
use base_types::{NoMemory, Seq, Text};
use std::alloc::{AllocError, AllocFailed, Global};
use thiserror::Error;

/// The most pieces that a text of a row may have.
const MOST_PIECES: u32 = 1000;

/// Why a row has no answer.
#[derive(Clone, Copy, Debug, Drop, PartialEq, Eq, Error)]
pub enum RowError {
    /// The program does not know the row, as where it has a typing error.
    #[error("the row is not known")]
    Unknown,
    #[error("out of memory")]
    NoMemory,
}

impl From<NoMemory> for RowError {
    fn from(_e: NoMemory) -> RowError {
        RowError::NoMemory
    }
}

impl From<AllocError> for RowError {
    fn from(_e: AllocError) -> RowError {
        RowError::NoMemory
    }
}

impl<T: Drop> From<AllocFailed<T>> for RowError {
    fn from(_e: AllocFailed<T>) -> RowError {
        RowError::NoMemory
    }
}

/// What is left of a row. Each call takes what it reads off the front, with the blanks behind it.
#[derive(Clone, Copy, Drop)]
pub struct Row<'a> {
    rest: &'a [u8],
}

#[tactic(auto, unfolding(crate::specs::Rows::behind_word))]
fn behind_word(bytes: &[u8]) -> &[u8]
    ensures value { result.now ≡ behind_word bytes.now }
    ensures shorter { length result.now ≤ length bytes.now }
{
    let mut rest = bytes;
    'word: while let [b, behind @ ..] = rest {
        if *b == b' ' {
            break;
        }
        rest = behind;
    }
    rest
}

/// The number of bytes up to the first blank.
fn word_len(bytes: &[u8]) -> usize
    ensures { result ≡ word_len bytes.now }
{
    bytes.len() - behind_word(bytes).len()
}

/// The number of bytes of a quoted text, its quotes included; all of them where it has no end.
fn quoted_len(bytes: &[u8]) -> usize {
    let mut is_escaped = true;
    for (n, b) in bytes.iter().enumerate() {
        if is_escaped {
            is_escaped = false;
        } else if *b == b'\\' {
            is_escaped = true;
        } else if *b == b'"' {
            return n.saturating_add(1);
        }
    }
    bytes.len()
}

fn is_name_byte(b: u8) -> bool
    ensures { result ≡ is_name_byte b }
{
    b.is_ascii_alphanumeric() || b == b'_' || b >= 128
}

#[tactic(auto, unfolding(crate::specs::Rows::behind_name))]
fn behind_name(bytes: &[u8]) -> &[u8]
    ensures value { result.now ≡ behind_name bytes.now }
    ensures shorter { length result.now ≤ length bytes.now }
{
    let mut rest = bytes;
    'name: while let [b, behind @ ..] = rest {
        if !is_name_byte(*b) {
            break;
        }
        rest = behind;
    }
    rest
}

/// The number of bytes of a name: letters of all kinds, digits and `_`.
fn name_len(bytes: &[u8]) -> usize
    ensures { result ≡ name_len bytes.now }
{
    bytes.len() - behind_name(bytes).len()
}

fn push_all(all: &mut Seq<u8>, piece: &[u8]) -> Result<(), NoMemory> {
    for b in piece {
        all.push(*b)?;
    }
    Ok(())
}

fn text_of(bytes: &[u8]) -> Result<&str, RowError>
    ensures { IfOk result (λ text. text.now ≡ bytes.now) }
{
    match str::from_utf8(bytes) {
        Ok(text) => Ok(text),
        Err(_) => Err(RowError::Unknown),
    }
}

#[tactic(auto, unfolding(crate::specs::Rows::without_blanks))]
fn without_blanks(bytes: &[u8]) -> &[u8]
    ensures { result.now ≡ without_blanks bytes.now }
{
    let mut rest = bytes;
    'blanks: while let [b' ', behind @ ..] = rest {
        rest = behind;
    }
    rest
}

/// Without one blank at the front.
#[tactic(auto, unfolding(crate::specs::Rows::behind_blank))]
fn behind_blank(bytes: &[u8]) -> &[u8]
    ensures { result.now ≡ behind_blank bytes.now }
{
    match bytes {
        [b' ', rest @ ..] => rest,
        _ => bytes,
    }
}

impl<'a> Row<'a> {
    /// The row that a line is. All of the line is left, but for the blanks at its front.
    pub fn of(line: &'a str) -> Row<'a>
        ensures { result.rest.now ≡ without_blanks line.now }
    {
        Row {
            rest: without_blanks(line.as_bytes()),
        }
    }

    /// Whether nothing is left.
    pub fn is_done(&self) -> bool
        ensures { result ≡ (length self.now.rest.now == 0) }
    {
        self.rest.is_empty()
    }

    /// The bytes that are left.
    pub fn left(&self) -> &'a [u8]
        ensures { result.now ≡ self.now.rest.now }
    {
        self.rest
    }

    /// So many bytes of the front, and all where there are fewer.
    fn cut(&mut self, len: usize) -> &'a [u8]
        ensures front { result.now ≡ take len self.old.rest.now }
        ensures rest { self.new.rest.now ≡ left_behind self.old.rest.now len }
    {
        if len >= self.rest.len() {
            return self.all();
        }
        let (front, rest) = self.rest.split_at(len);
        self.rest = without_blanks(rest);
        front
    }

    /// All that is left, blanks at its end too.
    pub fn all(&mut self) -> &'a [u8]
        ensures all { result.now ≡ self.old.rest.now }
        ensures done { self.new.rest.now ≡ [] }
    {
        let all = self.rest;
        self.rest = &[];
        all
    }

    /// All that stands behind this sign and one blank, with the blanks at its front; `None` where the sign does not stand
    /// at the front.
    pub fn line_behind(&mut self, sign: &str) -> Option<&'a [u8]>
        ensures none { IfNone result (begins self.old.rest.now sign.now ≡ false) }
        ensures stays { IfNone result (self.new.rest.now ≡ self.old.rest.now) }
        ensures stands { IfSome result (λ line. begins self.old.rest.now sign.now ≡ true) }
        ensures behind { IfSome result (λ line. line.now ≡ behind_blank (drop (length sign.now) self.old.rest.now)) }
        ensures done { IfSome result (λ line. self.new.rest.now ≡ []) }
    {
        if !self.rest.starts_with(sign.as_bytes()) {
            return None;
        }
        let (_, line) = self.all().split_at(sign.len());
        Some(behind_blank(line))
    }

    /// All that is left, as a text.
    pub fn all_text(&mut self) -> Result<&'a str, RowError>
        ensures all { IfOk result (λ text. text.now ≡ self.old.rest.now) }
        ensures done { self.new.rest.now ≡ [] }
    {
        text_of(self.all())
    }

    /// Takes this off the front, where it must stand.
    pub fn must(&mut self, sign: &str) -> Result<(), RowError>
        ensures stands { OnOk result (begins self.old.rest.now sign.now ≡ true) }
        ensures taken { OnOk result (self.new.rest.now ≡ left_behind self.old.rest.now (length sign.now)) }
        ensures other { OnErr result (begins self.old.rest.now sign.now ≡ false) }
        ensures stays { OnErr result (self.new.rest.now ≡ self.old.rest.now) }
    {
        if self.takes(sign) {
            Ok(())
        } else {
            Err(RowError::Unknown)
        }
    }

    /// Whether this stands at the front, and is taken off.
    pub fn takes(&mut self, sign: &str) -> bool
        ensures stands { result ≡ begins self.old.rest.now sign.now }
        ensures rest { MatchBool result (self.new.rest.now ≡ left_behind self.old.rest.now (length sign.now))
            (self.new.rest.now ≡ self.old.rest.now) }
    {
        let found = self.rest.starts_with(sign.as_bytes());
        if found {
            self.cut(sign.len());
        }
        found
    }

    /// What stands before the next blank.
    pub fn word(&mut self) -> Result<&'a str, RowError>
        ensures word { IfOk result (λ text. text.now ≡ take (word_len self.old.rest.now) self.old.rest.now) }
        ensures rest { self.new.rest.now ≡ left_behind self.old.rest.now (word_len self.old.rest.now) }
    {
        let len = word_len(self.rest);
        text_of(self.cut(len))
    }

    /// A name: letters, digits and `_`; empty where none stands here.
    pub fn name(&mut self) -> Result<&'a str, RowError>
        ensures name { IfOk result (λ text. text.now ≡ take (name_len self.old.rest.now) self.old.rest.now) }
        ensures rest { self.new.rest.now ≡ left_behind self.old.rest.now (name_len self.old.rest.now) }
    {
        let len = name_len(self.rest);
        text_of(self.cut(len))
    }

    /// A number without a sign.
    pub fn number(&mut self) -> Result<u64, RowError>
        ensures number { IfOk result (λ n. Some n ≡ number_in (take (name_len self.old.rest.now) self.old.rest.now)) }
        ensures rest { self.new.rest.now ≡ left_behind self.old.rest.now (name_len self.old.rest.now) }
    {
        let len = name_len(self.rest);
        read_number(self.cut(len)).ok_or(RowError::Unknown)
    }

    /// A number of 128 bits, with its sign.
    pub fn integer(&mut self) -> Result<i128, RowError> {
        let len = match self.rest.split_first() {
            Some((b'-', digits)) => name_len(digits).saturating_add(1),
            _ => name_len(self.rest),
        };
        match text_of(self.cut(len))?.parse::<i128>() {
            Ok(number) => Ok(number),
            Err(_) => Err(RowError::Unknown),
        }
    }

    /// Whether a number is next.
    pub fn is_integer(&self) -> bool {
        match self.rest.split_first() {
            Some((b'-', digits)) => digits.first().is_some_and(|b| b.is_ascii_digit()),
            Some((first, _)) => first.is_ascii_digit(),
            None => false,
        }
    }

    /// A number below 2 ^ 32.
    pub fn small(&mut self) -> Result<u32, RowError>
        ensures number { IfOk result (λ n. Some n ≡ number_in (take (name_len self.old.rest.now) self.old.rest.now)) }
        ensures rest { self.new.rest.now ≡ left_behind self.old.rest.now (name_len self.old.rest.now) }
    {
        match u32::try_from(self.number()?) {
            Ok(number) => Ok(number),
            Err(_) => Err(RowError::Unknown),
        }
    }

    /// Whether a quoted text is next.
    pub fn is_quoted(&self) -> bool
        ensures { result ≡ begins self.now.rest.now (34 ∷ []) }
    {
        self.rest.first() == Some(&b'"')
    }

    /// A text in quotes, with the escapes of a trace.
    pub fn quoted(&mut self, alloc: Global) -> Result<Text, RowError> {
        let len = quoted_len(self.rest);
        read_quoted(alloc, self.cut(len))?.ok_or(RowError::Unknown)
    }

    /// A text, in quotes or as a word.
    pub fn text(&mut self, alloc: Global) -> Result<Text, RowError> {
        if self.is_quoted() {
            return self.quoted(alloc);
        }
        Ok(Text::from_str(alloc, self.word()?)?)
    }

    /// Bytes as a trace spells a source: in quotes, or `hex(..)`.
    pub fn bytes(&mut self, alloc: Global) -> Result<Seq<u8>, RowError> {
        let len = if self.is_quoted() {
            quoted_len(self.rest)
        } else {
            word_len(self.rest)
        };
        read_source(alloc, self.cut(len))?.ok_or(RowError::Unknown)
    }

    /// Bytes in pieces: each as a trace spells a source, maybe with `* N` behind it, and with `+` between.
    pub fn pieces(&mut self, alloc: Global) -> Result<Seq<u8>, RowError> {
        let mut all = Seq::new(alloc);
        for _ in 0..MOST_PIECES {
            let piece = self.bytes(alloc)?;
            let times = if self.takes("*") { self.number()? } else { 1 };
            for _ in 0..times {
                push_all(&mut all, piece.as_slice())?;
            }
            if !self.takes("+") {
                return Ok(all);
            }
        }
        Err(RowError::Unknown)
    }
}
