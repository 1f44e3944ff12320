//! Laws over the definitions: what bounds each state of a run, and what is told by what a round keeps. No code that runs.
#![tactic(auto)]

mod bounds;
mod rounds;
