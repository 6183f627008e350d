ghost use Rattle.std.specs.Prelude.{◌≡◌, IfOk, Some, string_bytes};
ghost use Rattle.commands.specs.Listing.{line_of, listing_of, operands_text};

use crate::answer::Summary;
use crate::mnemonics::mnemonic;
use instructions::{Decoded, Instruction, decode};
use std::alloc::{AllocError, Global};
use std::fmt;
use std::fmt::Write;
use words::printing::Kind;

// Operands shows the operands that are written behind the opcode at an offset, a blank in front of each:
// a form of one byte has its operand in its name.
#[derive(Clone, Copy)]
struct Operands {
    at: usize,
    found: Decoded,
}

impl fmt::Display for Operands {
    ghost output = { λ o. Some (operands_text o.at o.found) };

    fn fmt<W: fmt::Write>(&self, f: &mut fmt::Formatter<W>) -> fmt::Result {
        if self.found.size == 1 {
            return Ok(());
        }
        match self.found.instruction {
            Instruction::Load(n) | Instruction::Store(n) | Instruction::Trap(n) => {
                write!(f, " {n}")
            }
            Instruction::GetStatic(n) | Instruction::PutStatic(n) => write!(f, " {n}"),
            Instruction::Const(word) => write!(f, " {word}"),
            Instruction::Increment(n, by) => write!(f, " {n} {by}"),
            Instruction::NewArray(Kind::Char) => f.write_str(" 0"),
            Instruction::NewArray(Kind::Int) => f.write_str(" 1"),
            Instruction::Jump(by) | Instruction::JumpIf(_, by) | Instruction::Call(by) => {
                let target = self.at as i128 + by as i128;
                write!(f, " {by} -> {target}")
            }
            Instruction::Enter(parameters, locals) => write!(f, " {parameters} {locals}"),
            _ => Ok(()),
        }
    }
}

// Line shows the instruction at an offset.
#[derive(Clone, Copy)]
struct Line {
    at: usize,
    opcode: u8,
    found: Decoded,
}

impl fmt::Display for Line {
    ghost output = { λ l. Some (line_of l.at l.opcode l.found) };

    fn fmt<W: fmt::Write>(&self, f: &mut fmt::Formatter<W>) -> fmt::Result {
        let Line { at, opcode, found } = *self;
        let name = mnemonic(opcode);
        let operands = Operands { at, found };
        writeln!(f, "{at:>4}  {name}{operands}")
    }
}

// listing is what the header of an accepted file says, and then a line for each instruction of its code,
// as far as there are complete ones.
pub fn listing(heap: Global, summary: Summary, code: &[u8]) -> Result<String, AllocError>
    ensures { IfOk result (λ text. string_bytes text ≡ listing_of summary code.now) }
{
    let mut text = summary.to_string(heap)?;
    // at is counted here: it is printed, and so is what lies a distance from it, so a walk over slices would count it too
    let mut at = 0;
    while let Some(found) = decode(&code[at..]) {
        let opcode = code[at];
        let line = Line { at, opcode, found };
        write!(text, "{line}")?;
        at += found.size as usize;
    }
    Ok(text)
}
