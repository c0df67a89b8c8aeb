// A session of the line program, without its input and output (01, "The line program"): bytes of a job in, bytes of answers out, over lent slices and a
// state by value. What is said is `output` of specs/Session.antt, over `model`'s calls; `run::run` on the blocks of an input and `run::last` at its end
// say just that (proofs/Theorems.antt).
#![tactic(auto)]

mod desk;
mod header;
pub mod run;
pub mod stages;
