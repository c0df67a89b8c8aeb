// THE PUBLIC LIBRARY: the partner search of phase folding on one lent store (01-scope.md, "01"). Derived from tzap, Apache-2.0 (NOTICE): the part of
// `Folder` of src/phase_fold_pauli.rs that feeds the frames and the history.
//
// A caller lends a slice of 64-bit words with each call. `calls::open` makes a store of it; the other calls work on it; none of them asks anything of
// its arguments or of the words. What each promises is its `ensures`, in the words of crates/store/specs/Promises.antt:
//     Opens     an opening: its number, and over any old contents every word that it relies on, no other
//     Meets     a call that writes: 3 on a slice that is too short; no number above 9; no word changed on 1 to 8; on a store that our calls have left, the
//               answer is `model`'s, and every word is the new state's or, where that relies on none, as it was
//     Answers   the same of a call that only reads
// proofs/Theorems.antt says what that means for any calls in a row: `Since-computes`, `Since-never_nine`, `one_exit`, `short_exit`, `one_opening`,
// `demand_three`, `two_stores`. docs/PROMISES.md holds them against the sentences of the mission and of 01.
#![tactic(auto)]

pub mod calls;
