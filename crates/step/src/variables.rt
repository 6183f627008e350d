ghost use Rattle.std.specs.Prelude.{length, pos, ◌+ℤ◌};
ghost use Rattle.step.specs.Promises.{Performed, PlaceFound};

use crate::blocks::place;
use crate::interpreter::Interpreter;
use crate::registers::Effect;
use instructions::Instruction;
use outcomes::Verdict;

impl Interpreter<'_> {
    // local gives the call-store word of a local.
    fn local(&self, n: u8) -> Result<usize, Verdict>
        ensures { PlaceFound result (self.now.frame +ℤ pos n) (length self.now.call.now) }
    {
        place(self.frame as i64 + n as i64, self.call.len())
    }

    // load performs a load of a local.
    pub(crate) fn load(&mut self, n: u8, next: u16) -> Result<Effect, Verdict>
        ensures { Performed (Instruction.Load n) next result self.old self.new }
    {
        let word = self.call[self.local(n)?];
        self.constant(word, next)
    }

    // store performs a store to a local.
    pub(crate) fn store(&mut self, n: u8, next: u16) -> Result<Effect, Verdict>
        ensures { Performed (Instruction.Store n) next result self.old self.new }
    {
        let at = self.local(n)?;
        let [word] = self.uppermost::<1>()?;
        self.height -= 1;
        self.call[at] = word;
        self.pc = next as i32;
        Ok(Effect::Moved)
    }

    // increment performs an addition to a local.
    pub(crate) fn increment(&mut self, n: u8, by: i8, next: u16) -> Result<Effect, Verdict>
        ensures { Performed (Instruction.Increment n by) next result self.old self.new }
    {
        let at = self.local(n)?;
        self.call[at] = self.call[at].wrapping_add(by as i32);
        self.pc = next as i32;
        Ok(Effect::Moved)
    }

    // get_static performs a load of a global.
    pub(crate) fn get_static(&mut self, n: u16, next: u16) -> Result<Effect, Verdict>
        ensures { Performed (Instruction.GetStatic n) next result self.old self.new }
    {
        let word = self.data[place(n as i64, self.data.len())?];
        self.constant(word, next)
    }

    // put_static performs a store to a global.
    // It is not one with store: a method that writes either store would be lent a field of the struct that it is called on.
    pub(crate) fn put_static(&mut self, n: u16, next: u16) -> Result<Effect, Verdict>
        ensures { Performed (Instruction.PutStatic n) next result self.old self.new }
    {
        let at = place(n as i64, self.data.len())?;
        let [word] = self.uppermost::<1>()?;
        self.height -= 1;
        self.data[at] = word;
        self.pc = next as i32;
        Ok(Effect::Moved)
    }
}
