//! Tests of typing by a slow twin: a walk over all pairs of a site and a rule, with look-ups that go through all classes, finds the
//! same first pair as `plain_fj`. Beside them stand tests of expressions by themselves.
#![tactic(auto)]

#[cfg(test)]
mod tests;
