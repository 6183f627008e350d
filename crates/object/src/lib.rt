// Owns the object file: which bytes are one, and what an inspected one stands for.
// Promises that inspect accepts exactly the files of the format, and refuses any other with its number and offset.
// Does not run anything, and does not allocate.
//
// checked.rt: the answers. header.rt: the 14 bytes before the code. starts.rt: where instructions begin, and where
// jumps and calls lead. inspect.rt: the whole inspection. docs/object-file.md: the format.
#![tactic(auto)]

pub mod checked;
mod header;
pub mod inspect;
mod starts;
