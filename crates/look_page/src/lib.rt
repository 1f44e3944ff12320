//! What stands on the page of a run before its data and behind them, as `page/` has it. `scripts/write-page` writes the constants.
#![tactic(auto)]

mod texts;

pub use texts::{BEFORE_DATA, BEHIND_DATA};
