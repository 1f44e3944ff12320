//! The identities of constraints by symbol and key, as lists that snapshots share for a pointer, with changes that are noted first and made
//! later.
#![tactic(auto)]

mod id_list;
mod key_change;
mod key_lists;
mod pending;
mod pending_keys;
mod symbol_key;

pub use chr_map::Memory;
pub use pending::Pending;
pub use pending_keys::PendingKeys;
