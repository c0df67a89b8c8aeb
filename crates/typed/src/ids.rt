// An event's number. The calls that record make it, a look names it, and kill and read take it. Any number is one: the calls refuse those that no event has.

// "Numbers count from 0 in order of recording and are never used again."
#[derive(Clone, Copy, Debug, PartialEq, Eq, PartialOrd, Ord, Hash)]
pub struct EventId(pub usize);
