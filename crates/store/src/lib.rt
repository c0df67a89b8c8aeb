// One lent slice of words as a store: its header, what an opening writes, and what every call asks of it first (docs/STORE.md). Derived from
// tzap, Apache-2.0 (NOTICE): what `Folder::new` of src/phase_fold_pauli.rs allocates stands here in words that the caller lends.
#![tactic(auto)]

pub mod header;
pub mod opening;
pub mod qubits;
pub mod refusals;
