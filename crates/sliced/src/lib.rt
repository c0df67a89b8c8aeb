// The sliced list in the words of one lent slice: event numbers with the axes of each block of 64 entries in masks. Derived from tzap,
// Apache-2.0 (NOTICE): `SlicedList` and `commutes_sliced` of src/phase_fold_pauli.rs.
#![tactic(auto)]

pub mod masks;
pub mod sliced;
