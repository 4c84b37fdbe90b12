//! Questions of a report.
use base_types::Text;

/// What one line of a report tells.
#[derive(Drop)]
pub enum Query {
    /// What an imported name means.
    Module(Text),
    /// What the module means of which all names are imported.
    All(Text),
    /// What a name means that is imported from a module.
    Member { module: Text, name: Text },
    /// That a relative name, as written, stands in no package.
    NoParent(Text),
    /// That a relative name, as written, has more dots than its package has parts.
    BeyondTop(Text),
    /// Why the source has no tree.
    Fault(Text),
}

/// A line of a report that is still to be told.
#[derive(Drop)]
pub struct Question {
    /// The line of the source, from 1.
    pub line: u32,
    pub query: Query,
}
