//! Tables of words.
ghost use Rattle.std.specs.Prelude.{◌≡◌};
ghost use Rattle.trace_fields.specs.Fields.{lookup, rows_of};

/// What a word stands for in a table of words. It takes no memory.
pub fn lookup<T: Copy + Drop>(field: &[u8], rows: &[(&'static str, T)]) -> Option<T>
    ensures { result ≡ lookup field.now (rows_of rows.now) }
{
    for row in rows {
        if field == row.0.as_bytes() {
            return Some(row.1);
        }
    }
    None
}
