// Lists of event numbers in the words of one lent slice: what a look spends, places in a rising list, and the scalar list. Derived from tzap,
// Apache-2.0 (NOTICE): `Budget` and `ScalarList` of src/phase_fold_pauli.rs.
#![tactic(auto)]

pub mod budget;
pub mod live;
pub mod places;
pub mod scalar;
