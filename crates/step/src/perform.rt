ghost use Rattle.step.specs.Promises.{InCode, Performed};

use crate::interpreter::Interpreter;
use crate::registers::Effect;
use instructions::Instruction;
use outcomes::Verdict;

impl Interpreter<'_> {
    // perform does what an instruction does; next is the offset behind it.
    // A match: the instruction set is closed, and each method has operands of its own.
    // That pc is in the code is no fact of the type: it holds from the fetch of an instruction to its jump.
    pub(crate) fn perform(&mut self, instruction: Instruction, next: u16) -> Result<Effect, Verdict>
        requires { InCode self.old.pc }
        ensures { Performed instruction next result self.old self.new }
    {
        match instruction {
            Instruction::Load(n) => self.load(n, next),
            Instruction::Store(n) => self.store(n, next),
            Instruction::GetStatic(n) => self.get_static(n, next),
            Instruction::PutStatic(n) => self.put_static(n, next),
            Instruction::Const(word) => self.constant(word, next),
            Instruction::Binary(operator) => self.compute(operator, next),
            Instruction::Negate => self.negate(next),
            Instruction::Increment(n, by) => self.increment(n, by, next),
            Instruction::NewArray(kind) => self.new_array(kind, next),
            Instruction::ArrayLoad(kind) => self.array_load(kind, next),
            Instruction::ArrayStore(kind) => self.array_store(kind, next),
            Instruction::ArrayLength => self.array_length(next),
            Instruction::Pop => self.pop(next),
            Instruction::Dup => self.dup(next),
            Instruction::Dup2 => self.dup2(next),
            Instruction::Jump(by) => self.jump(by, next),
            Instruction::JumpIf(relation, by) => self.jump_if(relation, by, next),
            Instruction::Call(by) => self.call_method(by, next),
            Instruction::Return => self.return_to_caller(next),
            Instruction::Enter(parameters, locals) => self.enter(parameters, locals, next),
            Instruction::Exit => self.exit(next),
            Instruction::Read(kind) => self.read(kind, next),
            Instruction::Print(kind) => self.print(kind, next),
            Instruction::Trap(n) => self.trap(n, next),
        }
    }
}
