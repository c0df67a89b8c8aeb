// The calls on events that are recorded: kill, clear, read and look (01, "Events and the search"). Derived from tzap, Apache-2.0 (NOTICE): the
// Rust's `History::kill` and `History::partner` as `Folder` calls them, with refusals.
#![tactic(auto)]

pub mod events;
pub mod looks;
