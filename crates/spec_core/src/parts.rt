//! The parts of a dotted name, as borrowed texts.
ghost use Rattle.std.specs.Prelude.{◌≡◌, ◌<◌, length, IfSome, MatchOption};
ghost use Rattle.spec_core.specs.Names.{tail_of, front_of, joined, NoDot};

/// What stands before the last dot, and what stands after it.
pub(crate) fn around_last_dot(name: &str) -> Option<(&str, &str)>
    ensures value { MatchOption result (NoDot name.now) (λ p. (name.now ≡ joined p.0.now p.1.now) × NoDot p.1.now) }
    ensures shorter { IfSome result (λ p. length p.0.now < length name.now) }
{
    name.rsplit_once('.')
}

/// The last part.
pub(crate) fn tail_of(name: &str) -> &str
    ensures { result.now ≡ tail_of name.now }
{
    match around_last_dot(name) {
        Some((_, tail)) => tail,
        None => name,
    }
}

/// The first part.
pub(crate) fn front_of(name: &str) -> &str
    ensures { result.now ≡ front_of name.now }
{
    match name.split_once('.') {
        Some((front, _)) => front,
        None => name,
    }
}
