//! Tests of reading and printing that no case tells: a slow reading of the grammar, copies of what was read, prints whose sink fails,
//! and the real files and streams.
#![tactic(auto)]

#[cfg(test)]
mod tests;
