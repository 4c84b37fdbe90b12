/// A name that the import system itself knows.
#[derive(Clone, Copy, Debug, PartialEq, Eq)]
pub enum KnownName {
    /// `__main__`, the module of a script.
    Main,
    /// `sys`
    Sys,
    /// `importlib`
    Importlib,
    /// `pyimport`
    Pyimport,
}

ghost use Rattle.std.specs.Prelude.{◌≡◌};
ghost use Rattle.spec_core.specs.Known.{known_text};

/// How the name is spelled.
pub(crate) fn known_text(name: KnownName) -> &'static str
    ensures { result.now ≡ known_text name }
{
    match name {
        KnownName::Main => "__main__",
        KnownName::Sys => "sys",
        KnownName::Importlib => "importlib",
        KnownName::Pyimport => "pyimport",
    }
}
