// Words as sets of qubits: set digits, sets of numbers, and Pauli rows as parts of slices. Derived from tzap, Apache-2.0 (NOTICE):
// `bits`, `BitSet` and `Row` of src/phase_fold_pauli.rs, `support_signature` and `anticommutes` of src/pbc/optimize/words.rs.
#![tactic(auto)]

pub mod bits;
pub mod corrupt;
pub mod fill;
pub mod rows;
pub mod sets;
