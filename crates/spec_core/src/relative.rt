//! Relative names.
ghost use Rattle.std.specs.Prelude.{◌≡◌, ◌≤◌, ◌<◌, ◌-◌, length, take, MatchOption, Some, None, IfOk, IfSome};
ghost use Rattle.std.specs.Option.{option_copied};
ghost use Rattle.spec_core.specs.Names.{parts};
ghost use Rattle.spec_core.specs.Relative.{resolved, front_parts, followed, Resolves};

use crate::name::Dotted;
use crate::view::DottedView;
use base_types::{NoMemory, Text};
use thiserror::Error;

/// Why a relative name names nothing.
#[derive(Clone, Copy, Debug, PartialEq, Eq, Error)]
pub enum RelativeError {
    #[error("attempted relative import with no known parent package")]
    NoParent,
    #[error("attempted relative import beyond top-level package")]
    BeyondTop,
    #[error("out of memory")]
    NoMemory,
}

impl From<NoMemory> for RelativeError {
    ghost use Rattle.std.specs.Prelude.{◌≡◌};
    ghost use Rattle.spec_core.specs.declared.relative.RelativeError.TheVariants.{NoMemory};

    ghost from_gives = { λ _ e. e ≡ NoMemory };

    fn from(_: NoMemory) -> RelativeError {
        RelativeError::NoMemory
    }
}

/// The name that is meant by `level` dots and a name behind them in a module of this package (Language Reference 5.7).
/// NoParent exactly where the package is None or no dotted name, BeyondTop exactly where it has fewer parts than the
/// level.
pub fn resolve(
    package: Option<&Text>,
    level: u32,
    name: Option<&Dotted>,
) -> Result<Dotted, RelativeError>
    requires { 1 ≤ level }
    ensures { Resolves (resolved (option_copied «package».entry) level (option_copied name.entry)) result }
{
    let Some(package) = package else {
        return Err(RelativeError::NoParent);
    };
    let Some(package) = Dotted::read(package)? else {
        return Err(RelativeError::NoParent);
    };
    let Some(base) = ancestor(package.view(), level - 1) else {
        return Err(RelativeError::BeyondTop);
    };
    Ok(behind(base, name)?)
}

/// The name without its last `count` parts. None where it has no more parts than that.
fn ancestor(name: DottedView<'_>, count: u32) -> Option<DottedView<'_>>
    ensures none { result ≡ None → length (parts name.entry) ≤ count }
    ensures some { IfSome result (λ it. (count < length (parts name.entry))
        × (it ≡ front_parts (length (parts name.entry) - count) name.entry)) }
{
    let mut name = name;
    'levels: for _ in 0..count {
        match name.parent() {
            Some(parent) => name = parent,
            None => return None,
        }
    }
    Some(name)
}

/// The base with a name behind it, where there is one.
fn behind(base: DottedView<'_>, name: Option<&Dotted>) -> Result<Dotted, NoMemory>
    ensures { IfOk result (λ it. it ≡ followed base.entry (option_copied name.entry)) }
{
    match name {
        Some(name) => base.followed_by(name.text()),
        None => base.own(),
    }
}
