//! Lexemes, names and lists of names.
ghost use Rattle.std.specs.Prelude.{◌≡◌, ◌++◌, ◌∷◌, [], OnOk};
ghost use Rattle.py_syntax.specs.declared.lexeme.Lexeme.TheVariants as token;
ghost use Rattle.source_print.specs.Between as between;
ghost use Rattle.source_print.specs.Statements as print_of;

use base_types::{Exact, NoMemory, Seq, Text, Texts};
use py_syntax::Lexeme;

/// One more lexeme.
pub(crate) fn put(out: &mut Seq<Lexeme>, lexeme: Lexeme) -> Result<(), NoMemory>
    ensures { OnOk result (out.new ≡ out.old ++ lexeme ∷ []) }
{
    out.push(lexeme)
}

pub(crate) fn put_name(out: &mut Seq<Lexeme>, name: &Text) -> Result<(), NoMemory>
    ensures { OnOk result (out.new ≡ out.old ++ token.Name name.now ∷ []) }
{
    put(out, Lexeme::Name(name.copy()?))
}

/// A comma before each item but the first.
pub(crate) fn put_comma(out: &mut Seq<Lexeme>, at: usize) -> Result<(), NoMemory>
    ensures { OnOk result (out.new ≡ out.old ++ between.before token.Comma at) }
{
    if at == 0 {
        Ok(())
    } else {
        put(out, Lexeme::Comma)
    }
}

/// A dot before each part but the first.
pub(crate) fn put_dot(out: &mut Seq<Lexeme>, at: usize) -> Result<(), NoMemory>
    ensures { OnOk result (out.new ≡ out.old ++ between.before token.Dot at) }
{
    if at == 0 {
        Ok(())
    } else {
        put(out, Lexeme::Dot)
    }
}

/// The parts of a dotted name.
pub(crate) fn put_dotted(out: &mut Seq<Lexeme>, parts: &Texts) -> Result<(), NoMemory>
    ensures { OnOk result (out.new ≡ out.old ++ print_of.names_with token.Dot parts.now) }
{
    let parts = parts.as_slice();
    for n in 0..parts.len() {
        put_dot(out, n)?;
        put_name(out, &parts[n])?;
    }
    Ok(())
}

/// Names with commas between.
pub(crate) fn put_names(out: &mut Seq<Lexeme>, names: &Texts) -> Result<(), NoMemory>
    ensures { OnOk result (out.new ≡ out.old ++ print_of.names_with token.Comma names.now) }
{
    let names = names.as_slice();
    for n in 0..names.len() {
        put_comma(out, n)?;
        put_name(out, &names[n])?;
    }
    Ok(())
}
