//! What a run did, and why: verdicts on rules and lists of constraints.
#![tactic(auto)]

mod asking;
mod constraint;
mod costs;
mod effects;
mod fronts;
mod hindrances;
mod joining;
mod judging;
mod kind;
mod leaving;
mod log;
mod looked;
mod looking;
mod made;
mod next;
mod notes;
mod profile;
mod renaming;
mod verdict;
mod waking;
mod watching;

pub use chr_term::Memory;
pub use constraint::Constraint;
pub use costs::{HeadCost, SolveCost};
pub use effects::{Before, Effect};
pub use fronts::{Front, Fronts, MOST_FRONTS, look_at_lists};
pub use joining::Parting;
pub use judging::{guard_test, judge};
pub use kind::Kind;
pub use leaving::Removals;
pub use log::Birth;
pub use looking::{ListLog, Search, watch_list};
pub use notes::watch;
pub use profile::{Profile, watch_costs};
pub use verdict::Verdict;
pub use waking::watch_life;
pub use watching::Watched;
