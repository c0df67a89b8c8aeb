// The texts of the line program (01, "The line program"): a line of the input is read, a line of the output is written. No input or output happens here.
//
// All texts are one language of shapes (specs/Shape.antt): a shape is a text with places for values, printed by one definition, read by one function and
// written by one. What callers use: `lines::read_line`, whose answer is a line exactly where the text is that line's (specs/Line.antt), and the writers
// of `answers`, each of which leaves exactly the text that specs/Spoken.antt says, as far as the lent buffer goes (specs/Wrote.antt).
#![tactic(auto)]

pub mod answers;
#[cfg(test)]
mod by_number;
mod items;
pub mod lines;
pub mod shapes;
pub mod writing;
