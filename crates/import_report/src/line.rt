//! The lines of a report.
ghost use Rattle.std.specs.Prelude.{◌≡◌, ◌≤◌, ◌++◌, IfOk, IsErrOf, OnOk, codes};
ghost use Rattle.std.specs.Option.{ForSome};
ghost use Rattle.spec_core.specs.Names.{joined};
ghost use Rattle.tree_files.specs.Count.{Rose};
ghost use Rattle.import_report.specs.Meanings.{meaning_of};
ghost use Rattle.import_report.specs.Lines as spec;

use crate::meanings::{is_found, is_package, meaning_text};
use crate::{Meaning, meaning_of};
use base_types::{Exact, NoMemory, Text, Texts};
use report_questions::{Query, Question};
use std::alloc::Global;
use tree_files::{Tree, TreeFault};

/// A line of a report.
#[derive(Drop)]
pub struct Line {
    /// It has no line end.
    pub text: Text,
    /// Whether what is asked for is found.
    pub found: bool,
}

/// What is asked for, and what it is.
fn arrow(alloc: Global, what: &str, means: &str) -> Result<Text, NoMemory>
    ensures { IfOk result (λ text. text ≡ what.now ++ codes " -> " ++ means.now) }
{
    Text::from_string(format!(in alloc; "{what} -> {means}")?)
}

/// A name of a module, with that it is in what the module means.
fn arrow_in(alloc: Global, what: &str, means: &str) -> Result<Text, NoMemory>
    ensures { IfOk result (λ text. text ≡ what.now ++ codes " -> name in " ++ means.now) }
{
    Text::from_string(format!(in alloc; "{what} -> name in {means}")?)
}

/// A name of a module.
fn member_of(alloc: Global, from: &str, name: &str) -> Result<Text, NoMemory>
    ensures { IfOk result (λ text. text ≡ from.now ++ codes ":" ++ name.now) }
{
    Text::from_string(format!(in alloc; "{from}:{name}")?)
}

/// A module's name with one more part.
fn with_part(alloc: Global, from: &str, name: &str) -> Result<Text, NoMemory>
    ensures { IfOk result (λ text. text ≡ joined from.now name.now) }
{
    let mut longer = Text::from_str(alloc, from)?;
    longer.push_str(".")?;
    longer.push_str(name)?;
    Ok(longer)
}

/// A line's number, between its file and its text.
fn line_mark(alloc: Global, line: u32) -> Result<Text, NoMemory>
    ensures { IfOk result (λ it. it ≡ spec.line_mark line) }
{
    Text::from_string(format!(in alloc; ":{line}: ")?)
}

/// A text in a line of a file.
fn in_file(alloc: Global, file: &str, line: u32, text: &str) -> Result<Text, NoMemory>
    ensures { IfOk result (λ it. it ≡ (file.now ++ spec.line_mark line) ++ text.now) }
{
    let mark = line_mark(alloc, line)?;
    let mut whole = Text::from_str(alloc, file)?;
    whole.push_str(mark.as_str())?;
    whole.push_str(text)?;
    Ok(whole)
}

/// What a name means.
fn told(what: &Text, means: &Meaning) -> Result<Line, NoMemory>
    ensures { IfOk result (λ it. it ≡ spec.told what.now means.now) }
{
    let found = is_found(means);
    let means = meaning_text(what.alloc(), means)?;
    let text = arrow(what.alloc(), what.as_str(), means.as_str())?;
    Ok(Line { text, found })
}

/// That a name is one of a module that means this.
fn name_in(what: &Text, means: &Meaning) -> Result<Line, NoMemory>
    ensures { IfOk result (λ it. it ≡ spec.name_in what.now means.now) }
{
    let means = meaning_text(what.alloc(), means)?;
    let text = arrow_in(what.alloc(), what.as_str(), means.as_str())?;
    Ok(Line { text, found: true })
}

/// That a relative name means nothing, and why.
fn refused(what: &Text, why: &str) -> Result<Line, NoMemory>
    ensures { IfOk result (λ it. it ≡ spec.refused what.now why.now) }
{
    let text = arrow(what.alloc(), what.as_str(), why)?;
    Ok(Line { text, found: false })
}

/// What a name of a module means, where the module and the name behind it mean this.
fn chosen(what: &Text, means: &Meaning, member: &Meaning) -> Result<Line, NoMemory>
    ensures { IfOk result (λ it. it ≡ spec.chosen what.now means.now member.now) }
{
    if is_package(means) && is_found(member) {
        return told(what, member);
    }
    if is_found(means) {
        return name_in(what, means);
    }
    told(what, means)
}

/// What an imported name means.
fn name_line<T: Tree>(
    tree: &mut T,
    path: &Texts,
    what: &Text,
    name: &Text,
) -> Result<Line, TreeFault>
    ensures line { ForSome (T.files tree.old) (λ f. IfOk result
        (λ it. it ≡ spec.name_line f path.now what.now name.now)) }
    ensures failed { IsErrOf result TreeFault.Failed → Rose (T.faults tree.old) (T.faults tree.new) }
    ensures faults_stay { OnOk result (T.faults tree.new ≡ T.faults tree.old) }
    ensures files_stay { T.files tree.new ≡ T.files tree.old }
    ensures faults_grow { T.faults tree.old ≤ T.faults tree.new }
    ensures lists_stay { T.lists tree.new ≡ T.lists tree.old }
{
    let means = meaning_of(tree, path, name)?;
    Ok(told(what, &means)?)
}

/// What a name of a module means, where the module means this. Only behind a package and a namespace is it looked for.
fn behind_module<T: Tree>(
    tree: &mut T,
    path: &Texts,
    what: &Text,
    means: &Meaning,
    longer: &Text,
) -> Result<Line, TreeFault>
    ensures line { ForSome (T.files tree.old) (λ f. IfOk result
        (λ it. it ≡ spec.chosen what.now means.now (meaning_of f path.now longer.now))) }
    ensures failed { IsErrOf result TreeFault.Failed → Rose (T.faults tree.old) (T.faults tree.new) }
    ensures faults_stay { OnOk result (T.faults tree.new ≡ T.faults tree.old) }
    ensures files_stay { T.files tree.new ≡ T.files tree.old }
    ensures faults_grow { T.faults tree.old ≤ T.faults tree.new }
    ensures lists_stay { T.lists tree.new ≡ T.lists tree.old }
{
    match means {
        Meaning::Package { .. } | Meaning::Namespace(_) => {
            let member = meaning_of(tree, path, longer)?;
            Ok(chosen(what, means, &member)?)
        }
        Meaning::Builtin | Meaning::Module(_) => Ok(name_in(what, means)?),
        Meaning::Missing(_) | Meaning::NotPackage(_) => Ok(told(what, means)?),
    }
}

/// What a name means that is imported from a module.
fn member_line<T: Tree>(
    tree: &mut T,
    path: &Texts,
    from: &Text,
    name: &Text,
) -> Result<Line, TreeFault>
    ensures line { ForSome (T.files tree.old) (λ f. IfOk result
        (λ it. it ≡ spec.member_line f path.now from.now name.now)) }
    ensures failed { IsErrOf result TreeFault.Failed → Rose (T.faults tree.old) (T.faults tree.new) }
    ensures faults_stay { OnOk result (T.faults tree.new ≡ T.faults tree.old) }
    ensures files_stay { T.files tree.new ≡ T.files tree.old }
    ensures faults_grow { T.faults tree.old ≤ T.faults tree.new }
    ensures lists_stay { T.lists tree.new ≡ T.lists tree.old }
{
    let alloc = name.alloc();
    let what = member_of(alloc, from.as_str(), name.as_str())?;
    let longer = with_part(alloc, from.as_str(), name.as_str())?;
    let means = meaning_of(tree, path, from)?;
    behind_module(tree, path, &what, &means, &longer)
}

/// The answer to a question, without its place.
fn query_line<T: Tree>(tree: &mut T, path: &Texts, query: &Query) -> Result<Line, TreeFault>
    ensures line { ForSome (T.files tree.old) (λ f. IfOk result (λ it. it ≡ spec.query_line f path.now query.now)) }
    ensures failed { IsErrOf result TreeFault.Failed → Rose (T.faults tree.old) (T.faults tree.new) }
    ensures faults_stay { OnOk result (T.faults tree.new ≡ T.faults tree.old) }
    ensures files_stay { T.files tree.new ≡ T.files tree.old }
    ensures faults_grow { T.faults tree.old ≤ T.faults tree.new }
    ensures lists_stay { T.lists tree.new ≡ T.lists tree.old }
{
    match query {
        Query::Module(name) => name_line(tree, path, name, name),
        Query::All(from) => {
            let what = member_of(from.alloc(), from.as_str(), "*")?;
            name_line(tree, path, &what, from)
        }
        Query::Member { module: from, name } => member_line(tree, path, from, name),
        Query::NoParent(what) => Ok(refused(what, "no parent package")?),
        Query::BeyondTop(what) => Ok(refused(what, "beyond top-level package")?),
        Query::Fault(text) => Ok(Line {
            text: text.copy()?,
            found: false,
        }),
    }
}

/// A line with its place before it.
fn placed(file: &Text, line: u32, answer: Line) -> Result<Line, NoMemory>
    ensures { IfOk result (λ it. it ≡ spec.placed file.now line answer) }
{
    let text = in_file(file.alloc(), file.as_str(), line, answer.text.as_str())?;
    Ok(Line {
        text,
        found: answer.found,
    })
}

/// The line of a report that answers a question of a file, by what names mean on this path.
pub fn question_line<T: Tree>(
    tree: &mut T,
    path: &Texts,
    file: &Text,
    question: &Question,
) -> Result<Line, TreeFault>
    ensures line { ForSome (T.files tree.old) (λ f. IfOk result
        (λ it. it ≡ spec.question_line f path.now file.now question.now)) }
    ensures failed { IsErrOf result TreeFault.Failed → Rose (T.faults tree.old) (T.faults tree.new) }
    ensures faults_stay { OnOk result (T.faults tree.new ≡ T.faults tree.old) }
    ensures files_stay { T.files tree.new ≡ T.files tree.old }
    ensures faults_grow { T.faults tree.old ≤ T.faults tree.new }
    ensures lists_stay { T.lists tree.new ≡ T.lists tree.old }
{
    let answer = query_line(tree, path, &question.query)?;
    Ok(placed(file, question.line, answer)?)
}

/// The line of a folder that is too deep to be entered.
pub fn too_deep(folder: &Text) -> Result<Line, NoMemory>
    ensures { IfOk result (λ it. it ≡ spec.too_deep folder.now) }
{
    let mut text = folder.copy()?;
    text.push_str(": too deep")?;
    Ok(Line { text, found: false })
}
