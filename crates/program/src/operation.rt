use crate::{Direction, Variable};
use outcomes::Position;
use words::arithmetic::{Operator, Relation};
use words::printing::Kind;

// Call is a call of a method, by its number, and how many arguments stand before it.
#[derive(Clone, Copy, PartialEq, Eq, Debug)]
pub struct Call {
    pub method: u16,
    pub arguments: u8,
}

// Operation is one element of the flat list of a program, in the order of its code.
#[derive(Clone, Copy, PartialEq, Eq, Debug)]
pub enum Operation {
    // A constant, a variable, or an element of the array and by the index before it.
    Constant(u32),
    Load(Variable),
    LoadElement(Kind),
    // What is done with the values before it.
    Negate,
    Binary(Operator),
    NewArray(Kind),
    Length,
    Convert(Kind),
    // The result of a method.
    Result(Call),
    // A comparison of the two values before it; And and Or stand between comparisons.
    Compare(Relation),
    And,
    Or,
    // A word that is read.
    Read(Kind),
    // The value before it goes to a variable, or to the element of the array and by the index before the value.
    Store(Variable),
    StoreElement(Kind),
    Step(Direction, Variable),
    StepElement(Direction, Kind),
    // A print of the value before it at a width.
    Print(Kind, u8),
    // A call of a method without a result, and one whose result is not used.
    Invoke(Call),
    Discard(Call),
    // A condition stands before Then; behind it an action, perhaps Else and another, and EndIf.
    Then,
    Else,
    EndIf,
    // A condition stands between BeginWhile and Do, and an action between Do and EndWhile.
    BeginWhile,
    Do,
    EndWhile,
    Break,
    Return,
    Give,
    // A block stands between Begin and End.
    Begin,
    End,
    Nothing,
    // The end of a method's body.
    EndMethod,
}

// Head is what is known of a method beside its body.
#[derive(Clone, Copy, PartialEq, Eq, Debug)]
pub struct Head {
    // position is that of the method's name.
    pub position: Position,
    pub parameters: u8,
    // variables counts parameters and locals.
    pub variables: u8,
    // result is the kind of what the method gives; a void method gives nothing.
    pub result: Option<Kind>,
}
