// Owns the machine's instructions: what they are called, and how they are written as bytes.
// Promises that decode reads exactly the instruction set's table, which specs/Table.antt defines once.
// Does not say what an instruction does: the crate step does that.
#![tactic(auto)]

ghost use Rattle.instructions.specs.Decode as spec;
ghost use Rattle.std.proofs.Common.{to_z};
ghost use Rattle.std.specs.Int.{w16};
ghost use Rattle.std.specs.Prelude.{◌≡◌, ◌+◌, ◌*◌};

use words::arithmetic::{Operator, Relation};
use words::printing::Kind;

// Instruction is one step's work, with the short forms already read as the long ones.
#[derive(Clone, Copy, PartialEq, Eq, Debug)]
pub enum Instruction {
    Load(u8),
    Store(u8),
    GetStatic(u16),
    PutStatic(u16),
    Const(i32),
    Binary(Operator),
    Negate,
    Increment(u8, i8),
    NewArray(Kind),
    ArrayLoad(Kind),
    ArrayStore(Kind),
    ArrayLength,
    Pop,
    Dup,
    Dup2,
    Jump(i16),
    JumpIf(Relation, i16),
    Call(i16),
    Return,
    Enter(u8, u8),
    Exit,
    Read(Kind),
    Print(Kind),
    Trap(u8),
}

// Decoded is an instruction and the number of its bytes.
#[derive(Clone, Copy, PartialEq, Eq, Debug)]
pub struct Decoded {
    pub instruction: Instruction,
    pub size: u8,
}

// decode gives the instruction that the bytes begin with, or None where they begin with none.
pub fn decode(bytes: &[u8]) -> Option<Decoded>
    ensures { result ≡ spec.decoded bytes.now }
{
    // An arm for each operator and relation: where a list gave those of a run of opcodes, a step took up to a third longer.
    match bytes {
        [1, n, ..] => sized(Instruction::Load(*n), 2),
        [op @ 2..=5, ..] => sized(Instruction::Load(*op - 2), 1),
        [6, n, ..] => sized(Instruction::Store(*n), 2),
        [op @ 7..=10, ..] => sized(Instruction::Store(*op - 7), 1),
        [11, hi, lo, ..] => sized(Instruction::GetStatic(u16::from_be_bytes([*hi, *lo])), 3),
        [12, hi, lo, ..] => sized(Instruction::PutStatic(u16::from_be_bytes([*hi, *lo])), 3),
        [op @ 15..=20, ..] => sized(Instruction::Const((*op - 15) as i32), 1),
        [21, ..] => sized(Instruction::Const(-1), 1),
        [22, a, b, c, d, ..] => sized(Instruction::Const(i32::from_be_bytes([*a, *b, *c, *d])), 5),
        [23, ..] => sized(Instruction::Binary(Operator::Add), 1),
        [24, ..] => sized(Instruction::Binary(Operator::Subtract), 1),
        [25, ..] => sized(Instruction::Binary(Operator::Multiply), 1),
        [26, ..] => sized(Instruction::Binary(Operator::Divide), 1),
        [27, ..] => sized(Instruction::Binary(Operator::Remainder), 1),
        [28, ..] => sized(Instruction::Negate, 1),
        [31, n, by, ..] => sized(Instruction::Increment(*n, i8::from_be_bytes([*by])), 3),
        [33, 0, ..] => sized(Instruction::NewArray(Kind::Char), 2),
        [33, 1, ..] => sized(Instruction::NewArray(Kind::Int), 2),
        [34, ..] => sized(Instruction::ArrayLoad(Kind::Int), 1),
        [35, ..] => sized(Instruction::ArrayStore(Kind::Int), 1),
        [36, ..] => sized(Instruction::ArrayLoad(Kind::Char), 1),
        [37, ..] => sized(Instruction::ArrayStore(Kind::Char), 1),
        [38, ..] => sized(Instruction::ArrayLength, 1),
        [39, ..] => sized(Instruction::Pop, 1),
        [40, ..] => sized(Instruction::Dup, 1),
        [41, ..] => sized(Instruction::Dup2, 1),
        [42, hi, lo, ..] => sized(Instruction::Jump(i16::from_be_bytes([*hi, *lo])), 3),
        [43, hi, lo, ..] => jump_if(Relation::Equal, *hi, *lo),
        [44, hi, lo, ..] => jump_if(Relation::NotEqual, *hi, *lo),
        [45, hi, lo, ..] => jump_if(Relation::Less, *hi, *lo),
        [46, hi, lo, ..] => jump_if(Relation::LessOrEqual, *hi, *lo),
        [47, hi, lo, ..] => jump_if(Relation::Greater, *hi, *lo),
        [48, hi, lo, ..] => jump_if(Relation::GreaterOrEqual, *hi, *lo),
        [49, hi, lo, ..] => sized(Instruction::Call(i16::from_be_bytes([*hi, *lo])), 3),
        [50, ..] => sized(Instruction::Return, 1),
        [51, parameters, locals, ..] if parameters <= locals => sized(
            Instruction::Enter(*parameters, *locals),
            3,
        ),
        [52, ..] => sized(Instruction::Exit, 1),
        [53, ..] => sized(Instruction::Read(Kind::Int), 1),
        [54, ..] => sized(Instruction::Print(Kind::Int), 1),
        [55, ..] => sized(Instruction::Read(Kind::Char), 1),
        [56, ..] => sized(Instruction::Print(Kind::Char), 1),
        [57, n, ..] => sized(Instruction::Trap(*n), 2),
        _ => None,
    }
}

fn jump_if(relation: Relation, hi: u8, lo: u8) -> Option<Decoded>
    ensures { result ≡ spec.sized 3 (Instruction.JumpIf relation (to_z w16 (hi * 256 + lo))) }
{
    sized(
        Instruction::JumpIf(relation, i16::from_be_bytes([hi, lo])),
        3,
    )
}

fn sized(instruction: Instruction, size: u8) -> Option<Decoded>
    ensures { result ≡ spec.sized size instruction }
{
    Some(Decoded { instruction, size })
}
