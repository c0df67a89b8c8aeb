// The calls that record events: a rotation, and the blockers of measure, reset, ccx and ccz (01, "Events and the search"). Derived from tzap,
// Apache-2.0 (NOTICE): the feeding part of `Folder` of src/phase_fold_pauli.rs, all or nothing and with refusals.
#![tactic(auto)]

pub mod calls;
pub mod events;
pub mod rows;
