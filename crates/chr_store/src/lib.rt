//! The store of constraints, by symbol and by key, and the propagation history.
#![tactic(auto)]

mod entry;
mod fired;
mod head_ids;
mod history;
mod id;
mod ids;
mod key;
mod key_ids;
mod lists;
mod row;
mod rows;
mod slots;
mod stamps;
mod store;
mod waking;

pub use chr_term::Memory;
pub use entry::Entry;
pub use fired::Fired;
pub use head_ids::HeadIds;
pub use history::History;
pub use id::Id;
pub use key::Key;
pub use row::Row;
pub use rows::Rows;
pub use store::Store;
