//! The tests of `embedding`, over its public calls. They are a crate of their own, so that a check of them does not prove `embedding` again.
#![tactic(auto)]

#[cfg(test)]
mod tests;
