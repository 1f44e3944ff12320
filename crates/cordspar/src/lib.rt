//! The library for C, as `include/cordspar.h` declares it: a program is read once, and answers query after query, on one thread and with no
//! lock. The calls stand in [`programs`] and [`runs`].
#![tactic(auto)]

mod handle;
mod held;
mod lined;
mod loose;
mod problem;
mod programs;
mod put;
mod run;
mod runs;
