#![tactic(auto)]

// The text of a script: what a line's words are read as, and how an answer is written.
// Test code: its promises are where a mark stands, which line is answered, what a word is and what is left of a line, how large a
// number is and how long a message, and what an answer and a fault are written as. None says which bytes a message has.
// docs/REPLAY.md has the format.
mod answer;
mod fault;
mod message;
mod text;
mod words;

pub use answer::{Answer, ROOM, Shown};
pub use fault::Fault;
pub use text::find;
pub use words::{LONGEST, Words};
