use outcomes::Refusal;
use std::marker::Model;

// Checked stands for the bytes of an object file that passed the inspection. Only inspect makes one.
#[derive(Drop)]
pub struct Checked<'a> {
    pub(crate) code: &'a [u8],
    pub(crate) globals: usize,
    pub(crate) main: usize,
}

// Clauses see the object, which is well formed.
impl<'a> Model for Checked<'a> {
    ghost use Rattle.object.specs.File.{Object};

    ghost Value = { Object };

    ghost use Rattle.object.specs.Fit.{WellFormed};

    ghost view = { λ c. record { code = c.code.now; globals = c.globals; main = c.main } };

    ghost invariant = { λ c. WellFormed (record { code = c.code.now; globals = c.globals; main = c.main }) };
}

// ObjectFault is a refusal of a file, and the offset that it is for.
#[derive(Clone, Copy, PartialEq, Eq, Debug)]
pub struct ObjectFault {
    pub refusal: Refusal,
    pub offset: usize,
}
