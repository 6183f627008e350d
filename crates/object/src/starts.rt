ghost use Rattle.std.specs.Prelude.{◌≡◌, ◌<◌, ◌≤◌, false, length, replicate, pos, ◌+ℤ◌, Decides};
ghost use Rattle.object.specs.Code.{Begins};
ghost use Rattle.object.specs.Marks.{StartsFound};
ghost use Rattle.object.specs.Targets.{Lands, Lowest, UnfitTargetAt, distance_of};

use crate::checked::ObjectFault;
use instructions::{Instruction, decode};
use outcomes::Refusal;
use std::marker::Model;

// Starts tells where the instructions of a code begin.
#[derive(Drop)]
pub(crate) struct Starts<'a> {
    code: &'a [u8],
    // Lent: owned marks would be moved with a Starts, 8 KiB each time, and take that much more stack.
    marks: &'a [bool],
}

// Clauses see the code.
impl<'a> Model for Starts<'a> {
    ghost use Rattle.std.specs.Prelude.{ℕ, ◌≤◌, List, length};
    ghost use Rattle.object.specs.Marks.{Marks};

    ghost Value = { List ℕ };

    ghost view = { λ s. s.code.now };

    ghost invariant = { λ s. (length s.code.now ≤ 8192) × Marks s.code.now s.marks.now };
}

// distance gives how far a jump or call leads from its own first byte.
fn distance(i: Instruction) -> Option<i16>
    ensures { result ≡ distance_of i }
{
    match i {
        Instruction::Jump(by) | Instruction::JumpIf(_, by) | Instruction::Call(by) => Some(by),
        _ => None,
    }
}

impl<'a> Starts<'a> {
    // of marks where the instructions begin, or refuses the code for the first that is unreadable.
    pub(crate) fn of(code: &'a [u8], marks: &'a mut [bool; 8192]) -> Result<Starts<'a>, ObjectFault>
        requires short { length code.now ≤ 8192 }
        requires blank { marks.old ≡ replicate 8192 false }
        ensures { StartsFound code.now result }
    {
        // No range or chunks give the next offset, and an iterator over instructions would end alike
        // at the end of the code and at an unreadable one, which are told apart here.
        let mut at = 0;
        while at < code.len() {
            let found = decode(&code[at..]).ok_or(ObjectFault {
                refusal: Refusal::UnfitInstruction,
                offset: at,
            })?;
            marks[at] = true;
            at += found.size as usize;
        }
        Ok(Starts { code, marks })
    }

    // begins tells whether an instruction begins at an offset.
    fn begins(&self, at: usize) -> bool
        ensures { Decides result (Begins self.now at) }
    {
        self.marks.get(at).copied().unwrap_or(false)
    }

    // lands tells whether an instruction begins that far from an offset.
    fn lands(&self, at: usize, by: i16) -> bool
        requires { at < 8192 }
        ensures { Decides result (Lands self.now (pos at +ℤ by)) }
    {
        // By let: is_some_and takes an FnOnce, and of one that borrows a struct with a model the kit knows nothing.
        let Some(target) = at.checked_add_signed(by as isize) else {
            return false;
        };
        self.begins(target)
    }

    // unfit tells whether an offset is to blame: that of a jump or call that does not lead to an instruction,
    // or the main address where none begins.
    fn unfit(&self, at: usize, main: usize) -> bool
        ensures { Decides result (UnfitTargetAt self.now main at) }
    {
        if !self.begins(at) {
            return at == main;
        }
        let found = decode(&self.code[at..]);
        // By let, as in lands.
        let Some(by) = found.and_then(|found| distance(found.instruction)) else {
            return false;
        };
        !self.lands(at, by)
    }

    // first_unfit gives the lowest offset to blame for a target where no instruction begins.
    pub(crate) fn first_unfit(&self, main: usize) -> Option<usize>
        requires { main < length self.now }
        ensures { Lowest (UnfitTargetAt self.now main) result }
    {
        (0..self.code.len()).find(|&at| self.unfit(at, main))
    }
}
