//! The search for partners: which constraints can fire a rule together, lowest identities first.
#![tactic(auto)]

mod active;
mod answer;
mod bucket;
mod bucket_rows;
mod candidates;
mod constraint;
mod cursor_state;
mod firing_history;
mod firings;
mod index;
mod index_change;
mod join;
mod lent_keys;
mod new_partners;
mod own_head;
mod pending_firings;
mod pending_index;
mod plan;
mod planning;
mod rebinding;
mod resolved_row;
mod root;
mod scope;
mod search;
mod snapshot;
mod snapshot_taking;
mod table;
mod table_search;
mod task_search;
mod tried;

pub use active::{Active, Cursor};
pub use answer::{Found, find};
pub use chr_term::Memory;
pub use firing_history::FiringHistory;
pub use pending_firings::PendingFirings;
pub use plan::{Lookup, Plan};
pub use snapshot::{Snapshot, Task};
pub use table::Table;
pub use tried::Tried;
