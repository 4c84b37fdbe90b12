//! Scripts.
ghost use Rattle.std.specs.Prelude.{◌≡◌, IfOk};
ghost use Rattle.std.specs.Str.{IsUtf8};
ghost use Rattle.source_print.specs.Lines.{Held};
ghost use Rattle.source_print.specs.TextLaws.{Utf8, PrintsBack};
ghost use Rattle.source_print.specs.Text.{text_of};
ghost use Rattle.source_print.specs.Statements.{printed};

use crate::page::text_of;
use crate::script_lexemes;
use base_types::{NoMemory, Text};
use py_syntax::Script;

/// The text of a script and what is known of it: names and strings are UTF-8.
fn text_of_script(script: &Script) -> Result<Text, NoMemory>
    ensures text { IfOk result (λ it. it ≡ text_of (printed script.now)) }
    ensures utf8 { IfOk result (λ _. Held Utf8 (printed script.now)) }
{
    let lexemes = script_lexemes(script)?;
    let text = text_of(script.body.alloc(), lexemes.as_slice());
    drop(lexemes);
    text
}

/// A `str` is UTF-8.
fn is_utf8(text: &str)
    ensures { IsUtf8 text.now }
{
    let _ = text;
}

/// The text of a script: a statement a line, each block on lines of its own, a parenthesis only where the grammar needs
/// one, and a blank between lexemes. It parses to the script again, where some source parses to it and the text is not
/// longer than a source may be, 1,048,576 bytes. The work is linear in the text.
///
/// # Errors
///
/// `NoMemory` for want of memory alone.
pub fn print_script(script: &Script) -> Result<Text, NoMemory>
    ensures text { IfOk result (λ it. it ≡ text_of (printed script.now)) }
    ensures parses { IfOk result (λ it. PrintsBack it script.now) }
{
    let text = text_of_script(script)?;
    is_utf8(text.as_str());
    Ok(text)
}
