//! A text that is written lexeme by lexeme.
ghost use Rattle.std.specs.Prelude.{◌≡◌, ◌++◌, IfOk, fold};
ghost use Rattle.py_syntax.specs.declared.lexeme.Lexeme.TheVariants as token;
ghost use Rattle.source_print.specs.Lines.{Held};
ghost use Rattle.source_print.specs.TextLaws.{Utf8};
ghost use Rattle.source_print.specs.Text as texts;
ghost use Rattle.source_print.specs.Page as pages;

use crate::spelling::put_spelled;
use base_spelling::put;
use base_types::{NoMemory, Text};
use py_syntax::Lexeme;
use std::alloc::Global;

/// What is written so far, how many levels of indentation are open, and whether a line begins.
#[derive(Drop)]
pub struct Page {
    pub text: Text,
    pub depth: u64,
    pub is_first: bool,
}

fn put_indentation(out: Text, depth: u64) -> Result<Text, NoMemory>
    ensures { IfOk result (λ it. it ≡ out ++ texts.indentation depth) }
{
    let mut more = out;
    for _level in 0..depth {
        more = put(more, "    ")?;
    }
    Ok(more)
}

/// What stands before a lexeme.
fn put_lead(out: Text, depth: u64, is_first: bool) -> Result<Text, NoMemory>
    ensures { IfOk result (λ it. it ≡ out ++ texts.lead depth is_first) }
{
    if is_first {
        put_indentation(out, depth)
    } else {
        put(out, " ")
    }
}

fn put_plain(page: Page, lexeme: &Lexeme) -> Result<Page, NoMemory>
    ensures page { IfOk result (λ it. it ≡ pages.with_plain page lexeme.now) }
    ensures utf8 { IfOk result (λ _. Utf8 lexeme.now) }
{
    let Page {
        text,
        depth,
        is_first,
    } = page;
    let text = put_lead(text, depth, is_first)?;
    let text = put_spelled(text, lexeme)?;
    Ok(Page {
        text,
        depth,
        is_first: false,
    })
}

fn put_line_end(page: Page) -> Result<Page, NoMemory>
    ensures { IfOk result (λ it. it ≡ pages.written page token.Newline) }
{
    let Page { text, depth, .. } = page;
    let text = put(text, "\n")?;
    Ok(Page {
        text,
        depth,
        is_first: true,
    })
}

/// One level more. No memory holds so many that they cannot be counted.
fn deeper(page: Page) -> Result<Page, NoMemory>
    ensures { IfOk result (λ it. it ≡ pages.written page token.Indent) }
{
    let Page {
        text,
        depth,
        is_first,
    } = page;
    match depth.checked_add(1) {
        Some(depth) => Ok(Page {
            text,
            depth,
            is_first,
        }),
        None => Err(NoMemory),
    }
}

fn back(page: Page) -> Page
    ensures { result ≡ pages.written page token.Dedent }
{
    let Page {
        text,
        depth,
        is_first,
    } = page;
    Page {
        text,
        depth: depth.saturating_sub(1),
        is_first,
    }
}

fn put_lexeme(page: Page, lexeme: &Lexeme) -> Result<Page, NoMemory>
    ensures page { IfOk result (λ it. it ≡ pages.written page lexeme.now) }
    ensures utf8 { IfOk result (λ _. Utf8 lexeme.now) }
{
    match lexeme {
        Lexeme::Newline => put_line_end(page),
        Lexeme::Indent => deeper(page),
        Lexeme::Dedent => Ok(back(page)),
        Lexeme::End => Ok(page),
        _ => put_plain(page, lexeme),
    }
}

fn put_lexemes(page: Page, lexemes: &[Lexeme]) -> Result<Page, NoMemory>
    ensures page { IfOk result (λ it. it ≡ fold pages.written page lexemes.now) }
    ensures utf8 { IfOk result (λ _. Held Utf8 lexemes.now) }
{
    let mut so_far = page;
    for lexeme in lexemes {
        so_far = put_lexeme(so_far, lexeme)?;
    }
    Ok(so_far)
}

/// The text of lexemes.
pub(crate) fn text_of(alloc: Global, lexemes: &[Lexeme]) -> Result<Text, NoMemory>
    ensures text { IfOk result (λ it. it ≡ texts.text_of lexemes.now) }
    ensures utf8 { IfOk result (λ _. Held Utf8 lexemes.now) }
{
    let blank = Page {
        text: Text::new(alloc),
        depth: 0,
        is_first: true,
    };
    let Page { text, .. } = put_lexemes(blank, lexemes)?;
    Ok(text)
}
