// Owns the core program: what a legal text stands for once its names are resolved and its types decided.
// Promises nothing yet: that the flat list of a body determines the body is still to be stated and proved.
// Does not say which texts are legal (the crate context), what a program does (meaning) or how it is coded (code).
//
// specs/Core.antt: values, conditions, actions, methods and programs. specs/Legal.antt: legal programs. specs/Flat.antt: the flat list of a program.
// operation.rt: the elements of a flat list. laws.rt: laws of the definitions.
#![tactic(auto)]

pub mod laws;
pub mod operation;

use words::printing::Kind;

// Shape is the type of a variable: the kind of its elements, and how many indices lead to one: 0 or 1.
// The dimension is a number: of an enum of the two, the theorems of all programs would speak of fewer programs.
#[derive(Clone, Copy, PartialEq, Eq, Debug)]
pub struct Shape {
    pub kind: Kind,
    pub dimension: u8,
}

// Variable is a local of the present method or a global, by its number.
#[derive(Clone, Copy, PartialEq, Eq, Debug)]
pub enum Variable {
    Local(u8),
    Global(u16),
}

// Direction is that of a step by one.
#[derive(Clone, Copy, PartialEq, Eq, Debug)]
pub enum Direction {
    Up,
    Down,
}
