//! What `import` and `from` name.
ghost use Rattle.std.specs.Prelude.{◌≡◌, ◌++◌, ◌∷◌, OnOk};
ghost use Rattle.py_syntax.specs.declared.lexeme.Lexeme.TheVariants as token;
ghost use Rattle.source_print.specs.Statements as print;

use crate::names::{put, put_comma, put_dotted, put_name};
use base_types::{NoMemory, Seq, Text, Texts};
use py_syntax::{Alias, ImportedNames, Lexeme};

/// `as` and a new name, if there is one.
pub(crate) fn put_bound(out: &mut Seq<Lexeme>, bound: &Option<Text>) -> Result<(), NoMemory>
    ensures { OnOk result (out.new ≡ out.old ++ print.bound_tokens bound.now) }
{
    match bound {
        None => Ok(()),
        Some(name) => {
            put(out, Lexeme::As)?;
            put_name(out, name)
        }
    }
}

fn put_alias(out: &mut Seq<Lexeme>, alias: &Alias) -> Result<(), NoMemory>
    ensures { OnOk result (out.new ≡ out.old ++ print.alias_tokens alias.now) }
{
    put_dotted(out, &alias.parts)?;
    put_bound(out, &alias.bound)
}

/// Aliases with commas between.
pub(crate) fn put_aliases(out: &mut Seq<Lexeme>, aliases: &Seq<Alias>) -> Result<(), NoMemory>
    ensures { OnOk result (out.new ≡ out.old ++ print.aliases aliases.now) }
{
    let aliases = aliases.as_slice();
    for n in 0..aliases.len() {
        put_comma(out, n)?;
        put_alias(out, &aliases[n])?;
    }
    Ok(())
}

fn put_imported(out: &mut Seq<Lexeme>, names: &ImportedNames) -> Result<(), NoMemory>
    ensures { OnOk result (out.new ≡ out.old ++ print.imported names.now) }
{
    match names {
        ImportedNames::All => put(out, Lexeme::Star),
        ImportedNames::Listed(items) => put_aliases(out, items),
    }
}

fn put_dots(out: &mut Seq<Lexeme>, count: u32) -> Result<(), NoMemory>
    ensures { OnOk result (out.new ≡ out.old ++ print.dots count) }
{
    for _n in 0..count {
        put(out, Lexeme::Dot)?;
    }
    Ok(())
}

/// `from` with its dots, parts and names.
pub(crate) fn put_from(
    out: &mut Seq<Lexeme>,
    dots: u32,
    parts: &Texts,
    names: &ImportedNames,
) -> Result<(), NoMemory>
    ensures { OnOk result (out.new ≡ out.old ++ token.From ∷
        ((print.dots dots ++ print.names_with token.Dot parts.now) ++ token.Import ∷ print.imported names.now)) }
{
    put(out, Lexeme::From)?;
    put_dots(out, dots)?;
    put_dotted(out, parts)?;
    put(out, Lexeme::Import)?;
    put_imported(out, names)
}
