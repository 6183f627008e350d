ghost use Rattle.std.specs.Prelude.{◌+◌, ◌≤◌, length};
ghost use Rattle.step.specs.Promises.{ArgumentsPassed, InCode, Performed};

use crate::blocks::{place, write_block};
use crate::interpreter::Interpreter;
use crate::registers::Effect;
use instructions::Instruction;
use outcomes::Verdict;

impl Interpreter<'_> {
    // call_method performs a call: the return address is next.
    pub(crate) fn call_method(&mut self, by: i16, next: u16) -> Result<Effect, Verdict>
        requires { InCode self.old.pc }
        ensures { Performed (Instruction.Call by) next result self.old self.new }
    {
        if self.top >= self.call.len() {
            return Err(Verdict::CallStackExhausted);
        }
        self.call[self.top] = next as i32;
        self.top += 1;
        self.pc += by as i32;
        Ok(Effect::Moved)
    }

    // return_to_caller performs a return.
    pub(crate) fn return_to_caller(&mut self, next: u16) -> Result<Effect, Verdict>
        ensures { Performed Instruction.Return next result self.old self.new }
    {
        if self.top < 1 {
            return Err(Verdict::IllegalStep);
        }
        let address = self.call[self.top - 1];
        if address == -1 {
            return Err(Verdict::Finished);
        }
        self.top -= 1;
        self.pc = address;
        Ok(Effect::Moved)
    }

    // enter performs the entry of a method: a frame is made, and the arguments are taken.
    pub(crate) fn enter(&mut self, parameters: u8, locals: u8, next: u16) -> Result<Effect, Verdict>
        ensures { Performed (Instruction.Enter parameters locals) next result self.old self.new }
    {
        if parameters > locals {
            return Err(Verdict::IllegalStep);
        }
        let count = parameters as usize;
        let first = self.top + 1;
        let top = first + locals as usize;
        if top > self.call.len() {
            return Err(Verdict::CallStackExhausted);
        }
        if self.height < count {
            return Err(Verdict::IllegalStep);
        }
        let left = self.height - count;
        if self.operand.len() - left < 32 {
            return Err(Verdict::OperandStackExhausted);
        }
        write_block(self.call, self.top, self.frame, locals as usize);
        self.pass_arguments(first, left, count);
        self.frame = first as i32;
        self.top = top;
        self.height = left;
        self.pc = next as i32;
        Ok(Effect::Moved)
    }

    // pass_arguments copies operands to the first locals of a frame.
    fn pass_arguments(&mut self, first: usize, left: usize, count: usize)
        requires there { left + count ≤ length self.old.operand.now }
        requires fits { first + count ≤ length self.old.call.now }
        ensures { ArgumentsPassed first left count self.old self.new }
    {
        // After a part of a store behind a `&mut` is lent for `copy_from_slice`, only its length is known.
        for k in 0..count {
            self.call[first + k] = self.operand[left + k];
        }
    }

    // exit performs an exit: the caller's frame comes back.
    pub(crate) fn exit(&mut self, next: u16) -> Result<Effect, Verdict>
        ensures { Performed Instruction.Exit next result self.old self.new }
    {
        let at = place(self.frame as i64 - 1, self.call.len())?;
        self.top = at;
        self.frame = self.call[at];
        self.pc = next as i32;
        Ok(Effect::Moved)
    }
}
