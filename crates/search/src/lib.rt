// The search: a mesh, settings and flows in, an answer and a table out.
#![tactic(auto)]

mod carrying;
mod entry;
mod twinning;

pub use entry::search;
