//! Tests of look-ups for all variants: in generated lines, under each selection, against the same look-ups in its variant.
#![tactic(auto)]

#[cfg(test)]
mod tests;
