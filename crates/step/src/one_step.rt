ghost use Rattle.std.specs.Prelude.{◌≡◌, ◌<◌, ◌≤◌, length, OnSome};
ghost use Rattle.step.specs.Perform.{fetched};
ghost use Rattle.step.specs.Promises.{Dropped, DroppedIn, InCode, Received, ReceivedIn, Stepped, registers_of};

use crate::interpreter::Interpreter;
use crate::registers::{Effect, Registers};
use instructions::{Decoded, decode};
use outcomes::Verdict;
use words::printing::Kind;

impl Interpreter<'_> {
    // fetch gives the next instruction: none outside the code.
    fn fetch(&self) -> Option<Decoded>
        ensures value { result ≡ fetched self.now.code.now self.now.pc }
        ensures inside { OnSome result (InCode self.now.pc) }
    {
        let at = usize::try_from(self.pc).ok()?;
        decode(self.code.get(at..)?)
    }

    // step makes one step, or tells which word or bytes it wants, or the verdict that ends the program.
    pub fn step(&mut self) -> Result<Effect, Verdict>
        ensures { Stepped result self.old self.new }
    {
        let found = self.fetch().ok_or(Verdict::IllegalStep)?;
        let next = self.pc as u16 + found.size as u16;
        self.perform(found.instruction, next)
    }

    // receive ends a read: the word taken, as its kind keeps it, is pushed.
    pub fn receive(&mut self, kind: Kind, word: i32, next: u16)
        requires { self.old.height < length self.old.operand.now }
        ensures { Received kind word next self.old self.new }
    {
        self.operand[self.height] = kind.keep(word);
        self.height += 1;
        self.pc = next as i32;
    }

    // drop_printed ends a print: the value and the width leave the operand stack.
    pub fn drop_printed(&mut self, next: u16)
        requires { 2 ≤ self.old.height }
        ensures { Dropped next self.old self.new }
    {
        self.height -= 2;
        self.pc = next as i32;
    }

    // registers gives the registers, for another run to go on with.
    pub fn registers(&self) -> Registers
        ensures { result ≡ registers_of self.now }
    {
        Registers {
            pc: self.pc,
            frame: self.frame,
            top: self.top,
            height: self.height,
            free: self.free,
        }
    }
}

// receive is Interpreter::receive for a host that has registers and an operand store, and no interpreter.
pub fn receive(r: &mut Registers, operand: &mut [i32], kind: Kind, word: i32, next: u16)
    requires { r.old.height < length operand.old }
    ensures { ReceivedIn kind word next r.old operand.old r.new operand.new }
{
    operand[r.height] = kind.keep(word);
    r.height += 1;
    r.pc = next as i32;
}

// drop_printed is Interpreter::drop_printed for a host that has registers alone.
pub fn drop_printed(r: &mut Registers, next: u16)
    requires { 2 ≤ r.old.height }
    ensures { DroppedIn next r.old r.new }
{
    r.height -= 2;
    r.pc = next as i32;
}
