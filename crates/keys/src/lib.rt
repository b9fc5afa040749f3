// The keys of the list.
#![tactic(auto)]

mod keys;

pub use keys::slacks;
