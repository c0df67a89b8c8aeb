// Both Pauli frames in one part of the store: the exact rows and the labels of the sketch. Derived from tzap, Apache-2.0 (NOTICE):
// `ExactFrame` and `SketchFrame` of src/phase_fold_pauli.rs.
// The words, n and l stay three parameters. Tried: `Frames { words: &mut [u64], n, l, ghost sized }` with the gates as methods. What is new in it
// proves, but a look lends the words shared and a gate for writing, so the one fact would stand in two types, and each method says more of what
// stays: the sizes and the loan. `n` and `l` as one value go through memory wherever LLVM leaves a call (docs/DECISIONS.md, "Speed's").
#![tactic(auto)]

pub mod axes;
pub mod gates;
pub mod moves;
pub mod opening;
