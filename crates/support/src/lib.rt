// What is done to every list of an axis's signature, in both forms. Derived from tzap, Apache-2.0 (NOTICE): `SupportLists`,
// `commutes_scalar` and `commutes_sliced` of src/phase_fold_pauli.rs.
#![tactic(auto)]

pub mod families;
