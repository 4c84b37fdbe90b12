//! Faults, and the errors that they are raised as.
ghost use Rattle.std.specs.Prelude.{◌≡◌, IfOk, codes, ◌++◌};
ghost use Rattle.std.specs.Fmt.{decimal};
ghost use Rattle.meaning_state.specs.Faults.{error_of};
ghost use Rattle.meaning_state.specs.Faults as table;
ghost use Rattle.meaning_state.specs.declared.fault.Fault.TheVariants as faults;
ghost use Rattle.py_value.specs.declared.kind.Kind.TheVariants as kinds;

use base_types::{NoMemory, Text};
use py_value::{Kind, Native, Place, Raised, TypeName};
use std::alloc::Global;

/// What goes wrong in a script, apart from what an operator raises by itself.
#[derive(Drop)]
pub enum Fault {
    /// A name has no value (Language Reference 4.2.2).
    NotDefined(Text),
    /// A local variable has no value.
    Unbound(Text),
    /// A module has no such attribute; whether it is initialising still.
    NoAttribute {
        is_initialising: bool,
        module: Text,
        name: Text,
    },
    /// An attribute that is to be deleted is not there.
    NotDeleted(Text),
    /// A built-in function was given too few or too many arguments.
    ArgumentCount(Native),
    /// A function that takes so many arguments was given so many.
    Parameters {
        function: Text,
        takes: usize,
        given: usize,
    },
    /// A value of this type has no length.
    NoLength(TypeName),
    /// The name of an attribute is no text.
    NameNotText,
    /// Items of a value of this type cannot be set or deleted.
    NoItemAssignment(TypeName),
    NotCallable(TypeName),
    /// What was to be raised is no error and no kind.
    NoException,
    /// A bare `raise` where no error is handled.
    NothingToRaise,
    /// An `except` names what is no kind.
    NotCaught,
    /// 200 bodies, calls and imports are open.
    TooDeep,
    /// A text has more than 65,536 bytes.
    TextTooLong,
    /// What the language of scripts leaves out.
    NotInProfile,
    /// The entry of the name in the cache is `None`.
    Halted(Text),
    /// No module of the name was found.
    NotFound(Text),
    /// The parent of the name is no package.
    NotPackage {
        name: Text,
        parent: Text,
    },
    /// A module has no variable and no submodule of the name; whether it is initialising still.
    CannotImport {
        is_initialising: bool,
        module: Text,
        place: Place,
        name: Text,
    },
    /// A relative name in a module without a package.
    NoParentPackage,
    /// A relative name with more dots than the package has parts.
    BeyondTop,
    /// Waiting for the lock of the name would close a cycle.
    Deadlock(Text),
    /// The entry of the name was dropped while its body ran.
    Lost(Text),
    /// The file has more than 1,048,576 bytes.
    TooLong,
    /// The method of this name was given too few or too many arguments.
    MethodCount(Text),
    /// An index is no number.
    NotIndices,
    /// A key is a list, or a tuple that holds one.
    Unhashable,
    /// The search path has 4,096 entries.
    PathFull,
    /// An entry for the search path is nested so deep that a list around it would be past the limit.
    PathTooDeep,
    /// What is to be reloaded is no module.
    NotReloadable,
    /// The module that is to be reloaded is not the entry of its name.
    NotCached(Text),
    /// It is not the entry any more once its lock is free.
    NoLongerCached(Text),
    /// The parent of a module that is to be reloaded has no entry.
    ParentNotCached(Text),
    /// The entry of the parent is `None`, which has no path.
    NothingHasNoPath,
    /// No file of the module that is to be reloaded was found.
    NoSpec(Text),
    /// This error.
    Given(Raised),
}

/// An error without a name.
fn plain(alloc: Global, kind: Kind, text: &str) -> Result<Raised, NoMemory>
    ensures { IfOk result (λ error. error ≡ table.raised kind text.now) }
{
    Raised::of(kind, Text::from_str(alloc, text)?, None)
}

/// A text between two others.
fn joined(alloc: Global, front: &str, middle: &str, back: &str) -> Result<Text, NoMemory>
    ensures { IfOk result (λ text. text ≡ front.now ++ middle.now ++ back.now) }
{
    Text::from_string(format!(in alloc; "{front}{middle}{back}")?)
}

/// An error with a text around another one.
fn around(
    alloc: Global,
    kind: Kind,
    front: &str,
    middle: &str,
    back: &str,
) -> Result<Raised, NoMemory>
    ensures { IfOk result (λ error. error ≡ table.raised kind (front.now ++ middle.now ++ back.now)) }
{
    Raised::of(kind, joined(alloc, front, middle, back)?, None)
}

/// The error of an attribute that a module lacks, with the texts around it.
fn lacking(
    alloc: Global,
    front: &str,
    module: &str,
    name: &str,
    back: &str,
) -> Result<Raised, NoMemory>
    ensures { IfOk result (λ error. error ≡ table.raised kinds.AttributeError
        (front.now ++ module.now ++ codes "' has no attribute '" ++ name.now ++ back.now)) }
{
    let start = joined(alloc, front, module, "' has no attribute '")?;
    around(alloc, Kind::AttributeError, start.as_str(), name, back)
}

/// The error of an attribute that a module lacks.
fn no_attribute(
    alloc: Global,
    is_initialising: bool,
    module: &str,
    name: &str,
) -> Result<Raised, NoMemory>
    ensures { IfOk result (λ error. error ≡ error_of (faults.NoAttribute is_initialising module.now name.now)) }
{
    if is_initialising {
        let front = "partially initialized module '";
        let back = "' (most likely due to a circular import)";
        return lacking(alloc, front, module, name, back);
    }
    lacking(alloc, "module '", module, name, "'")
}

/// A text with a number between two others.
fn counted(alloc: Global, front: &str, n: usize, back: &str) -> Result<Text, NoMemory>
    ensures { IfOk result (λ text. text ≡ front.now ++ decimal n ++ back.now) }
{
    Text::from_string(format!(in alloc; "{front}{n}{back}")?)
}

/// The error of a call with so many arguments of a function that takes so many.
fn parameters(alloc: Global, function: &str, takes: usize, given: usize) -> Result<Raised, NoMemory>
    ensures { IfOk result (λ error. error ≡ error_of (faults.Parameters function.now takes given)) }
{
    let start = joined(alloc, "", function, "() takes ")?;
    let middle = counted(alloc, start.as_str(), takes, " arguments, ")?;
    let text = counted(alloc, middle.as_str(), given, " given")?;
    plain(alloc, Kind::TypeError, text.as_str())
}

/// The error of a module that was not found.
fn not_found(alloc: Global, front: &str, name: Text, back: &str) -> Result<Raised, NoMemory>
    ensures { IfOk result (λ error. error ≡ table.not_found (front.now ++ name ++ back.now) name) }
{
    let text = format!(in alloc; "{front}{}{back}", name.as_str())?;
    let text = Text::from_string(text)?;
    Raised::of(Kind::ModuleNotFoundError, text, Some(name))
}

/// The error of an import that has to do with the module of this name.
fn import_error(alloc: Global, front: &str, name: Text, back: &str) -> Result<Raised, NoMemory>
    ensures { IfOk result (λ error. error ≡ table.import_error (front.now ++ name ++ back.now) name) }
{
    let text = format!(in alloc; "{front}{}{back}", name.as_str())?;
    let text = Text::from_string(text)?;
    Raised::of(Kind::ImportError, text, Some(name))
}

/// The error of a wrong number of arguments for a built-in function or a method.
fn argument_count(alloc: Global, name: &str) -> Result<Raised, NoMemory>
    ensures { IfOk result (λ error. error ≡ table.raised kinds.TypeError
        (codes "wrong number of arguments for " ++ name.now ++ codes "()")) }
{
    around(
        alloc,
        Kind::TypeError,
        "wrong number of arguments for ",
        name,
        "()",
    )
}

/// Where the text of a failed `from` import says that it looked.
fn looked_in(
    alloc: Global,
    is_initialising: bool,
    module: &str,
    place: &Place,
) -> Result<Text, NoMemory>
    ensures { IfOk result (λ text. text ≡ table.looked_in place.now is_initialising module.now) }
{
    match place {
        Place::File(file) => {
            let front = source_of(alloc, is_initialising, module)?;
            joined(alloc, front.as_str(), file.as_str(), ")")
        }
        _ => joined(alloc, "' from '", module, "' (unknown location)"),
    }
}

/// The same up to the name of the file.
fn source_of(alloc: Global, is_initialising: bool, module: &str) -> Result<Text, NoMemory>
    ensures { IfOk result (λ text. text ≡ table.source_of is_initialising module.now) }
{
    if is_initialising {
        let back = "' (most likely due to a circular import) (";
        return joined(alloc, "' from partially initialized module '", module, back);
    }
    joined(alloc, "' from '", module, "' (")
}

/// The error of a name that a module lacks in a `from` import.
fn cannot_import(
    alloc: Global,
    is_initialising: bool,
    module: Text,
    place: &Place,
    name: &str,
) -> Result<Raised, NoMemory>
    ensures { IfOk result
        (λ error. error ≡ error_of (faults.CannotImport is_initialising «module» place.now name.now)) }
{
    let back = looked_in(alloc, is_initialising, module.as_str(), place)?;
    let text = joined(alloc, "cannot import name '", name, back.as_str())?;
    Raised::of(Kind::ImportError, text, Some(module))
}

/// The error that a fault is raised as.
pub fn raised(alloc: Global, fault: Fault) -> Result<Raised, NoMemory>
    ensures { IfOk result (λ error. error ≡ error_of fault) }
{
    let (kind, text) = match fault {
        Fault::NotDefined(x) => {
            return around(
                alloc,
                Kind::NameError,
                "name '",
                x.as_str(),
                "' is not defined",
            );
        }
        Fault::Unbound(x) => {
            let back = "' where it is not associated with a value";
            return around(
                alloc,
                Kind::UnboundLocalError,
                "cannot access local variable '",
                x.as_str(),
                back,
            );
        }
        Fault::NoAttribute {
            is_initialising,
            module,
            name,
        } => {
            return no_attribute(alloc, is_initialising, module.as_str(), name.as_str());
        }
        Fault::NotDeleted(x) => {
            return around(
                alloc,
                Kind::AttributeError,
                "'module' object has no attribute '",
                x.as_str(),
                "'",
            );
        }
        Fault::ArgumentCount(native) => return argument_count(alloc, native.name()),
        Fault::MethodCount(name) => return argument_count(alloc, name.as_str()),
        Fault::NotCached(n) => return import_error(alloc, "module ", n, " not in sys.modules"),
        Fault::NoLongerCached(n) => {
            return import_error(alloc, "module '", n, "' not in sys.modules");
        }
        Fault::ParentNotCached(n) => {
            return import_error(alloc, "parent '", n, "' not in sys.modules");
        }
        Fault::NoSpec(n) => {
            return not_found(alloc, "spec not found for the module '", n, "'");
        }
        Fault::Parameters {
            function,
            takes,
            given,
        } => {
            return parameters(alloc, function.as_str(), takes, given);
        }
        Fault::NoLength(t) => {
            return around(
                alloc,
                Kind::TypeError,
                "object of type '",
                t.text(),
                "' has no len()",
            );
        }
        Fault::NoItemAssignment(t) => {
            return around(
                alloc,
                Kind::TypeError,
                "'",
                t.text(),
                "' object does not support item assignment",
            );
        }
        Fault::NotCallable(t) => {
            return around(
                alloc,
                Kind::TypeError,
                "'",
                t.text(),
                "' object is not callable",
            );
        }
        Fault::Halted(n) => {
            return not_found(alloc, "import of ", n, " halted; None in sys.modules");
        }
        Fault::NotFound(n) => return not_found(alloc, "No module named '", n, "'"),
        Fault::NotPackage { name, parent } => {
            let back = joined(alloc, "'; '", parent.as_str(), "' is not a package")?;
            return not_found(alloc, "No module named '", name, back.as_str());
        }
        Fault::CannotImport {
            is_initialising,
            module,
            place,
            name,
        } => return cannot_import(alloc, is_initialising, module, &place, name.as_str()),
        Fault::NoParentPackage => {
            let text = "attempted relative import with no known parent package";
            return plain(alloc, Kind::ImportError, text);
        }
        Fault::BeyondTop => {
            let text = "attempted relative import beyond top-level package";
            return plain(alloc, Kind::ImportError, text);
        }
        Fault::Deadlock(n) => {
            return around(
                alloc,
                Kind::DeadlockError,
                "deadlock detected by _ModuleLock('",
                n.as_str(),
                "')",
            );
        }
        Fault::Lost(n) => return around(alloc, Kind::KeyError, "'", n.as_str(), "'"),
        Fault::NotIndices => return plain(alloc, Kind::TypeError, "indices must be integers"),
        Fault::Unhashable => return plain(alloc, Kind::TypeError, "unhashable type: 'list'"),
        Fault::PathFull => return plain(alloc, Kind::ProfileError, "list too long"),
        Fault::PathTooDeep => return plain(alloc, Kind::ProfileError, "list too deep"),
        Fault::NotReloadable => {
            return plain(alloc, Kind::TypeError, "reload() argument must be a module");
        }
        Fault::NothingHasNoPath => {
            let text = "'NoneType' object has no attribute '__path__'";
            return plain(alloc, Kind::AttributeError, text);
        }
        Fault::Given(error) => return Ok(error),
        Fault::NameNotText => (Kind::TypeError, "attribute name must be string"),
        Fault::NoException => (Kind::TypeError, "exceptions must derive from BaseException"),
        Fault::NothingToRaise => (Kind::RuntimeError, "No active exception to reraise"),
        Fault::NotCaught => (
            Kind::TypeError,
            "catching classes that do not inherit from BaseException is not allowed",
        ),
        Fault::TooDeep => (Kind::RecursionError, "maximum recursion depth exceeded"),
        Fault::TextTooLong => (Kind::ProfileError, "text too long"),
        Fault::NotInProfile => (Kind::ProfileError, "not in the profile"),
        Fault::TooLong => (Kind::SyntaxError, "source is longer than 1048576 bytes"),
    };
    plain(alloc, kind, text)
}
