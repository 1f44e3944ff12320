//! The tests of `chr_shelf` and `chr_board`, over their public calls. They are a crate of their own, so that a check of them does not prove
//! those again.
#![tactic(auto)]

#[cfg(test)]
mod tests;
