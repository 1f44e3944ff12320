//! Prints, on standard error, how long runs take beside workers, what came of their tasks, and what a round cost.
#![tactic(auto)]

use std::io;

mod runs;
mod times;

fn main(rt: HostRuntime) -> io::Result<()> {
    runs::grow(&rt)
}
