//! Trees over real folders, which no row of a table can make: what stands in one, what a search finds in one, a folder
//! that may be neither listed nor searched, and a pipe.
#![tactic(auto)]

#[cfg(test)]
mod tests;
