// The trees in an area: the names of a node, whether a tree obeys, paths and edits.
#![tactic(auto)]

mod gathering;
mod obedience;
mod reaching;
mod reading;
mod splicing;
mod types;

pub use gathering::{gather, gather_with, gather_without};
pub use obedience::first_unlawful;
pub use reaching::{nodes_at, reach};
pub use splicing::{adopt, edit, splice};
pub use types::Reach;
