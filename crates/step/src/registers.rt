use words::printing::Kind;

// Registers are the machine's state beside its stores.
#[derive(Clone, Copy, PartialEq, Eq, Debug)]
pub struct Registers {
    // pc is the code offset of the next instruction.
    pub pc: i32,
    // frame is the call-store word of local 0.
    pub frame: i32,
    // top is the number of call-store words in use.
    pub top: usize,
    // height is the number of operand-store words in use.
    pub height: usize,
    // free is the next free heap word.
    pub free: usize,
}

// Effect is what a step that no verdict ends comes to.
#[derive(Clone, Copy)]
pub enum Effect {
    // The step is made.
    Moved,
    // The step is a read: it wants a word, and nothing has changed yet.
    Takes {
        kind: Kind,
        next: u16,
    },
    // The step is a print of a value at a width: nothing has changed yet.
    Writes {
        kind: Kind,
        value: i32,
        width: i32,
        next: u16,
    },
}

// Element is the heap word of an array's element, and the element's index.
#[derive(Clone, Copy)]
pub(crate) struct Element {
    pub(crate) word: usize,
    pub(crate) index: usize,
}
