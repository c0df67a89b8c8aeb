// The events recorded so far and the search for a partner, in the words of one lent part of the store (docs/STORE.md). Derived from tzap,
// Apache-2.0 (NOTICE): `History` of src/phase_fold_pauli.rs, with chains of buckets in place of its hash map.
#![tactic(auto)]

pub mod chains;
pub mod events;
pub mod findings;
pub mod forms;
pub mod kill;
pub mod layout;
pub mod looks;
pub mod opening;
pub mod record;
pub mod search;
