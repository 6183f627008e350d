ghost use Rattle.std.specs.Prelude.{◌≤◌, length};

// Stores are the four lists of words that a host lends a machine.
#[derive(Drop)]
pub struct Stores<'s> {
    pub data: &'s mut [i32],
    pub heap: &'s mut [i32],
    pub call: &'s mut [i32],
    pub operand: &'s mut [i32],
}

// Interpreter is a machine while it runs: its code, its registers, and the stores that it is lent.
// It has the fields of Registers and of Stores side by side: nested, a method would say self.registers.height for self.height.
#[derive(Drop)]
pub struct Interpreter<'s> {
    pub code: &'s [u8],
    pub pc: i32,
    pub frame: i32,
    pub top: usize,
    pub height: usize,
    pub free: usize,
    pub data: &'s mut [i32],
    pub heap: &'s mut [i32],
    pub call: &'s mut [i32],
    pub operand: &'s mut [i32],
    ghost code_short: { length code.now ≤ 8192 },
    ghost height_within: { height ≤ length operand.now },
    ghost top_within: { top ≤ length call.now },
    ghost free_within: { free ≤ length heap.now },
    ghost call_short: { length call.now ≤ 1048576 },
    ghost heap_short: { length heap.now ≤ 1048576 },
}
