// Owns the patterns: the code of each form of a core program, and the object that a program is translated to.
// Promises that the code is as long as its sizes say.
// Does not say what the code does: the machine does that, and the crate fidelity joins the two.
//
// specs/Encoding.antt: instructions as bytes. specs/Patterns.antt: sizes, code and operand heights. specs/Objects.antt: the object, and refusals 9 to 12.
#![tactic(auto)]

pub mod laws;
