//! Scripts that run in threads at once, held by gates, and a shared book that is stopped: what no contract says and no
//! row of a table can show.
#![tactic(auto)]

#[cfg(test)]
mod gates;
#[cfg(test)]
mod groves;
#[cfg(test)]
mod sinks;
#[cfg(test)]
mod stopped;
#[cfg(test)]
mod tests;
