//! What an import statement asks, in a module of a package.
ghost use Rattle.std.specs.Prelude.{◌≡◌, ◌≤◌, ◌++◌, ◌∷◌, [], IfOk, OnOk, map};
ghost use Rattle.report_questions.specs.Questions as spec;
ghost use Rattle.spec_core.specs.Relative.{resolved, Resolves};

use crate::Asked;
use crate::question::Query;
use base_types::{Exact, NoMemory, Seq, Text, Texts};
use spec_core::{Dotted, RelativeError, resolve};

/// A relative name as it is written.
fn written(level: u32, source: &Text) -> Result<Text, NoMemory>
    ensures { IfOk result (λ text. text ≡ spec.written level source.now) }
{
    let mut text = Text::new(source.alloc());
    for _ in 0..level {
        text.push_str(".")?;
    }
    text.push_str(source.as_str())?;
    Ok(text)
}

/// What `import` asks of its names.
fn module_queries(names: &Texts) -> Result<Seq<Query>, NoMemory>
    ensures { IfOk result (λ queries. queries ≡ spec.module_queries names.now) }
{
    let mut queries = Seq::new(names.alloc());
    for name in names.as_slice() {
        queries.push(Query::Module(name.copy()?))?;
    }
    Ok(queries)
}

/// What `from` asks of the names that it imports from a module.
fn member_queries(source: &Text, names: &Texts) -> Result<Seq<Query>, NoMemory>
    ensures { IfOk result (λ queries. queries ≡ spec.member_queries source.now names.now) }
{
    let mut queries = Seq::new(names.alloc());
    for name in names.as_slice() {
        let module = source.copy()?;
        queries.push(Query::Member {
            module,
            name: name.copy()?,
        })?;
    }
    Ok(queries)
}

/// One question alone.
fn one(query: Query, source: &Text) -> Result<Seq<Query>, NoMemory>
    ensures { IfOk result (λ queries. queries ≡ query ∷ []) }
{
    let mut queries = Seq::new(source.alloc());
    queries.push(query)?;
    Ok(queries)
}

/// What `from` asks of a module.
fn from_queries(source: &Text, names: &Option<Texts>) -> Result<Seq<Query>, NoMemory>
    ensures { IfOk result (λ queries. queries ≡ spec.from_queries source.now names.now) }
{
    match names {
        None => one(Query::All(source.copy()?), source),
        Some(names) => member_queries(source, names),
    }
}

/// The name that is meant by dots and what stands behind them.
fn meant(home: &Option<Text>, level: u32, behind: &Option<Dotted>) -> Result<Dotted, RelativeError>
    requires { 1 ≤ level }
    ensures { Resolves (resolved home.now level behind.now) result }
{
    resolve(home.as_ref(), level, behind.as_ref())
}

/// What a relative `from` asks.
fn relative_queries(
    home: &Option<Text>,
    level: u32,
    source: &Text,
    names: &Option<Texts>,
) -> Result<Seq<Query>, NoMemory>
    requires { 1 ≤ level }
    ensures { IfOk result (λ queries. queries ≡ spec.relative_queries home.now level source.now names.now) }
{
    let behind = Dotted::read(source)?;
    match meant(home, level, &behind) {
        Ok(name) => from_queries(&name.owned()?, names),
        Err(RelativeError::NoParent) => one(Query::NoParent(written(level, source)?), source),
        Err(RelativeError::BeyondTop) => one(Query::BeyondTop(written(level, source)?), source),
        Err(RelativeError::NoMemory) => Err(NoMemory),
    }
}

/// What an import statement asks in a module of this package.
pub fn queries_of(home: &Option<Text>, asked: &Asked) -> Result<Seq<Query>, NoMemory>
    ensures { IfOk result (λ queries. queries ≡ spec.queries_of home.now asked.now) }
{
    match asked {
        Asked::Modules(names) => module_queries(names),
        Asked::From {
            level,
            module,
            names,
        } => {
            if *level == 0 {
                from_queries(module, names)
            } else {
                relative_queries(home, *level, module, names)
            }
        }
    }
}
