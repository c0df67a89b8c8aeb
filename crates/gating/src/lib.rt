// The calls that change the frames of a store: a gate and a turn (01, "Frames"). Derived from tzap, Apache-2.0 (NOTICE): the Rust's
// `Folder::apply_clifford` and what calls it, with refusals.
#![tactic(auto)]

pub mod calls;
pub mod gates;
