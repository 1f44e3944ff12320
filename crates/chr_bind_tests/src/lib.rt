//! The tests of `chr_term`, `chr_bind` and `refusing_alloc`, over their public calls. They are a crate of their own, so that a check of
//! them does not prove these again.
#![tactic(auto)]

#[cfg(test)]
mod tests;
