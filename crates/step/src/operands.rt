ghost use Rattle.step.specs.Promises.{InCode, Performed, Uppermost};

use crate::interpreter::Interpreter;
use crate::registers::Effect;
use instructions::Instruction;
use outcomes::Verdict;
use words::arithmetic::{Operator, Relation, negation};
use words::printing::Kind;

impl Interpreter<'_> {
    // uppermost gives the N uppermost operands, the lowest of them first.
    pub(crate) fn uppermost<const N: usize>(&self) -> Result<[i32; N], Verdict>
        ensures { Uppermost N result self.now }
    {
        self.operand[..self.height]
            .last_chunk::<N>()
            .copied()
            .ok_or(Verdict::IllegalStep)
    }

    // constant performs a constant.
    pub(crate) fn constant(&mut self, word: i32, next: u16) -> Result<Effect, Verdict>
        ensures { Performed (Instruction.Const word) next result self.old self.new }
    {
        if self.height >= self.operand.len() {
            return Err(Verdict::IllegalStep);
        }
        self.operand[self.height] = word;
        self.height += 1;
        self.pc = next as i32;
        Ok(Effect::Moved)
    }

    // compute performs an operator on the two uppermost operands.
    pub(crate) fn compute(&mut self, operator: Operator, next: u16) -> Result<Effect, Verdict>
        ensures { Performed (Instruction.Binary operator) next result self.old self.new }
    {
        let [a, b] = self.uppermost::<2>()?;
        let word = operator.compute(a, b).ok_or(Verdict::DivisionByZero)?;
        self.operand[self.height - 2] = word;
        self.height -= 1;
        self.pc = next as i32;
        Ok(Effect::Moved)
    }

    // negate performs the negation of the uppermost operand.
    pub(crate) fn negate(&mut self, next: u16) -> Result<Effect, Verdict>
        ensures { Performed Instruction.Negate next result self.old self.new }
    {
        let [word] = self.uppermost::<1>()?;
        self.operand[self.height - 1] = negation(word);
        self.pc = next as i32;
        Ok(Effect::Moved)
    }

    // pop performs a pop.
    pub(crate) fn pop(&mut self, next: u16) -> Result<Effect, Verdict>
        ensures { Performed Instruction.Pop next result self.old self.new }
    {
        let [_] = self.uppermost::<1>()?;
        self.height -= 1;
        self.pc = next as i32;
        Ok(Effect::Moved)
    }

    // dup performs a dup.
    pub(crate) fn dup(&mut self, next: u16) -> Result<Effect, Verdict>
        ensures { Performed Instruction.Dup next result self.old self.new }
    {
        let [word] = self.uppermost::<1>()?;
        self.constant(word, next)
    }

    // dup2 performs a dup2.
    pub(crate) fn dup2(&mut self, next: u16) -> Result<Effect, Verdict>
        ensures { Performed Instruction.Dup2 next result self.old self.new }
    {
        if self.height < 2 || self.operand.len() - self.height < 2 {
            return Err(Verdict::IllegalStep);
        }
        self.operand[self.height] = self.operand[self.height - 2];
        self.operand[self.height + 1] = self.operand[self.height - 1];
        self.height += 2;
        self.pc = next as i32;
        Ok(Effect::Moved)
    }

    // jump_if performs a conditional jump, which compares the two uppermost operands.
    pub(crate) fn jump_if(
        &mut self,
        relation: Relation,
        by: i16,
        next: u16,
    ) -> Result<Effect, Verdict>
        requires { InCode self.old.pc }
        ensures { Performed (Instruction.JumpIf relation by) next result self.old self.new }
    {
        let [a, b] = self.uppermost::<2>()?;
        self.height -= 2;
        if relation.holds(a, b) {
            self.pc += by as i32;
        } else {
            self.pc = next as i32;
        }
        Ok(Effect::Moved)
    }

    // jump performs an unconditional jump.
    pub(crate) fn jump(&mut self, by: i16, next: u16) -> Result<Effect, Verdict>
        requires { InCode self.old.pc }
        ensures { Performed (Instruction.Jump by) next result self.old self.new }
    {
        self.pc += by as i32;
        Ok(Effect::Moved)
    }

    // read tells that a read wants a word, for which there is a place.
    pub(crate) fn read(&self, kind: Kind, next: u16) -> Result<Effect, Verdict>
        ensures { Performed (Instruction.Read kind) next result self.now self.now }
    {
        if self.height >= self.operand.len() {
            return Err(Verdict::IllegalStep);
        }
        Ok(Effect::Takes { kind, next })
    }

    // print tells what a print writes.
    pub(crate) fn print(&self, kind: Kind, next: u16) -> Result<Effect, Verdict>
        ensures { Performed (Instruction.Print kind) next result self.now self.now }
    {
        let [value, width] = self.uppermost::<2>()?;
        Ok(Effect::Writes {
            kind,
            value,
            width,
            next,
        })
    }

    // trap performs a trap: 1 is for a function that ends without a return.
    pub(crate) fn trap(&self, n: u8, next: u16) -> Result<Effect, Verdict>
        ensures { Performed (Instruction.Trap n) next result self.now self.now }
    {
        if n == 1 {
            Err(Verdict::MissingReturn)
        } else {
            Err(Verdict::IllegalStep)
        }
    }
}
