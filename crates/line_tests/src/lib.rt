//! Tests of lines from a source, of lines of JSON, and of requests and replies, each public call once at least.
#![tactic(auto)]

#[cfg(test)]
mod tests;
