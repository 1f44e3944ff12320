//! The tests of `chr_machine`, over its public calls. They are a crate of their own, so that a check of them
//! does not prove `chr_machine` again.
#![tactic(auto)]

#[cfg(test)]
mod tests;
