//! The identities of constraints.
use chr_term::Numbered;

/// The identity of a constraint, counted from 1 in the order in which constraints enter the store. 0 is none.
#[derive(Clone, Copy, PartialEq, Eq, PartialOrd, Ord, Hash, Debug, Default, Drop)]
pub struct Id(pub u64);

impl Numbered for Id {
    ghost number = { λ id. id.0 };

    fn number(&self) -> u64 {
        self.0
    }
}
