//! Where a new item of the search path goes.
ghost use Rattle.std.specs.Prelude.{◌≡◌, ◌≤◌};
ghost use Rattle.module_table.specs.Path.{place_from};

use base_types::Wide;

/// The place before an index, which counts from the end where it is negative and is cut to the ends.
/// Without an index it is the end.
pub(crate) fn place_from(len: usize, at: Option<Wide>) -> usize
    ensures place { result ≡ place_from len at }
    ensures within { result ≤ len }
{
    let Some(at) = at else {
        return len;
    };
    let at = at.get();
    let size = at.unsigned_abs();
    if at < 0 {
        if size >= len as u128 {
            0
        } else {
            len - size as usize
        }
    } else if size >= len as u128 {
        len
    } else {
        size as usize
    }
}
