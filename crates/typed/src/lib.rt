// THE LIBRARY FOR RATTLE: a store as a value over `partner`'s calls on lent slices. `stores::open` makes the caller's words a store, `stores::Store`
// borrows them, and its methods alone write them: none can be lent too few words, or words that hold no state, so 01's numbers 3 and 9 cannot come, and
// the types leave them out. A turn is one of four (`turns`), an event's number a type of its own (`ids`). `partner` stays below, since C lends a slice
// with each call. There is no logic here: what each method promises is `partner`'s promise, on words that hold a state.
#![tactic(auto)]

pub mod ids;
pub mod looks;
pub mod refusals;
pub mod stores;
#[cfg(test)]
mod tests;
pub mod turns;
