// THE HOST LIBRARY: the calls of `partner` for a program in C or Rust, on numbers and slices (../../include/tillbonnet.h says how to build it). Each
// function names its gate, kind or form by a number and then is the call; specs/Numbers.antt has the numbers, specs/Host.antt what "is the call"
// means. No C function asks anything of its arguments: a number that names nothing is answered with 10 (an opening: 1).
#![tactic(auto)]

pub mod calls;
mod named;
mod sizes;
mod words;
