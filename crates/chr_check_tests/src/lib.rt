//! The tests of `chr_check`, over its public calls. They are a crate of their own, so that a check of them
//! does not prove `chr_check` again.
#![tactic(auto)]

#[cfg(test)]
mod tests;
