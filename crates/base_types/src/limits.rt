/// The most bytes that a source may have.
pub const LONGEST_SOURCE: usize = 1_048_576;
