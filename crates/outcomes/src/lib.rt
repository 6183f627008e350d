// Owns the closed lists of how a step, a run or a call can end: verdicts, pauses and refusals.
// Promises the number of each case and the text that it prints as, and the stage of each refusal of a text.
// Does not say when a case is given: the layers do that.
//
// specs/Numbers.antt: the numbers and stages. specs/Names.antt: the texts. docs/refusals.md and docs/machine.md: what each case means.
#![tactic(auto)]

ghost use Rattle.std.specs.Prelude.{◌≡◌, ℕ, Some};
ghost use Rattle.std.proofs.Common.{rules};
ghost use Rattle.outcomes.specs.Names.{name_of_pause, name_of_verdict, words_for};
ghost use Rattle.outcomes.specs.Laws.{EachNumberIsOneCase};
ghost use Rattle.outcomes.specs.declared.Stop.TheVariants.{Ended};
ghost use Rattle.outcomes.specs.Numbers.{number_of_pause, number_of_refusal, number_of_stage, number_of_verdict, stage_of};

use std::fmt;

// Verdict is how a program ends.
#[derive(Clone, Copy, PartialEq, Eq, Debug)]
pub enum Verdict {
    Finished = 0,
    MissingReturn = 1,
    NullReference = 2,
    IndexOutOfRange = 3,
    DivisionByZero = 4,
    NegativeLength = 5,
    HeapExhausted = 6,
    CallStackExhausted = 7,
    OperandStackExhausted = 8,
    IllegalStep = 9,
}

// Pause is why a run stops before the program ends: it can go on in another run.
#[derive(Clone, Copy, PartialEq, Eq, Debug)]
pub enum Pause {
    Budget = 1,
    Input = 2,
    Output = 3,
}

// Stop is why a run goes no further.
#[derive(Clone, Copy, PartialEq, Eq, Debug)]
pub enum Stop {
    Ended(Verdict),
    Paused(Pause),
}

// Stage is the part of the translator that refuses a text.
#[derive(Clone, Copy, PartialEq, Eq, Debug)]
pub enum Stage {
    Scan = 1,
    Parse = 2,
    Resolve = 3,
    Generate = 4,
}

// Refusal is why a call does not do what it was asked for.
#[derive(Clone, Copy, PartialEq, Eq, Debug)]
pub enum Refusal {
    TextTooLong = 1,
    NoToken = 2,
    NumberTooLarge = 3,
    UnexpectedToken = 4,
    NestingTooDeep = 5,
    UnfitName = 6,
    ContextRule = 7,
    TooManyNames = 8,
    NoMain = 9,
    TooManyOperands = 10,
    CodeTooLong = 11,
    BufferTooShort = 12,
    UnfitHeader = 13,
    UnfitInstruction = 14,
    UnfitTarget = 15,
    UnfitStore = 16,
    StoreLengthChanged = 17,
    NoWordWaiting = 18,
    NoRoom = 19,
    InputFull = 20,
}

// Position is a line and a column of a text; both count from 1, and columns count bytes.
#[derive(Clone, Copy, PartialEq, Eq, Debug)]
pub struct Position {
    pub line: u32,
    pub column: u32,
}

// Fault is why a text is refused, and where.
#[derive(Clone, Copy, PartialEq, Eq, Debug)]
pub struct Fault {
    pub refusal: Refusal,
    pub position: Position,
}

// Numbered is a closed list of cases, each of which has a number of its own.
pub trait Numbered {
    // number_of is the number of a case.
    ghost number_of: { Self → ℕ };

    // number is the number of this case.
    fn number(self) -> u8
        ensures { result ≡ number_of self };

    // No two cases have one number.
    ghost one_case: { (a b : Self) → number_of a ≡ number_of b → a ≡ b };
}

// The numbers are 0 to 9.
impl Numbered for Verdict {
    ghost number_of = { number_of_verdict };

    ghost one_case = { Prim.search rules };

    fn number(self) -> u8 {
        self as u8
    }
}

// The numbers are 1 to 3.
impl Numbered for Pause {
    ghost number_of = { number_of_pause };

    ghost one_case = { Prim.search rules };

    fn number(self) -> u8 {
        self as u8
    }
}

// The numbers are 1 to 4.
impl Numbered for Stage {
    ghost number_of = { number_of_stage };

    ghost one_case = { Prim.search rules };

    fn number(self) -> u8 {
        self as u8
    }
}

// The numbers are 1 to 20.
impl Numbered for Refusal {
    ghost number_of = { number_of_refusal };

    ghost one_case = { Prim.search rules };

    fn number(self) -> u8 {
        self as u8
    }
}

impl Refusal {
    // stage is where a text is refused; refusals that are not of a text have none.
    pub fn stage(self) -> Option<Stage>
        ensures { result ≡ stage_of self }
    {
        match self {
            Refusal::TextTooLong | Refusal::NoToken | Refusal::NumberTooLarge => Some(Stage::Scan),
            Refusal::UnexpectedToken | Refusal::NestingTooDeep => Some(Stage::Parse),
            Refusal::UnfitName | Refusal::ContextRule | Refusal::TooManyNames => Some(
                Stage::Resolve,
            ),
            Refusal::NoMain
            | Refusal::TooManyOperands
            | Refusal::CodeTooLong
            | Refusal::BufferTooShort => Some(Stage::Generate),
            Refusal::UnfitHeader
            | Refusal::UnfitInstruction
            | Refusal::UnfitTarget
            | Refusal::UnfitStore
            | Refusal::StoreLengthChanged
            | Refusal::NoWordWaiting
            | Refusal::NoRoom
            | Refusal::InputFull => None,
        }
    }
}

// The names of cases are written by hand: of what a derived Debug prints no clause knows anything.
impl fmt::Display for Verdict {
    ghost output = { λ v. Some (name_of_verdict v) };

    fn fmt<W: fmt::Write>(&self, f: &mut fmt::Formatter<W>) -> fmt::Result {
        f.write_str(match self {
            Verdict::Finished => "Finished",
            Verdict::MissingReturn => "MissingReturn",
            Verdict::NullReference => "NullReference",
            Verdict::IndexOutOfRange => "IndexOutOfRange",
            Verdict::DivisionByZero => "DivisionByZero",
            Verdict::NegativeLength => "NegativeLength",
            Verdict::HeapExhausted => "HeapExhausted",
            Verdict::CallStackExhausted => "CallStackExhausted",
            Verdict::OperandStackExhausted => "OperandStackExhausted",
            Verdict::IllegalStep => "IllegalStep",
        })
    }
}

impl fmt::Display for Pause {
    ghost output = { λ p. Some (name_of_pause p) };

    fn fmt<W: fmt::Write>(&self, f: &mut fmt::Formatter<W>) -> fmt::Result {
        f.write_str(match self {
            Pause::Budget => "Budget",
            Pause::Input => "Input",
            Pause::Output => "Output",
        })
    }
}

impl fmt::Display for Refusal {
    ghost output = { λ r. Some (words_for r) };

    fn fmt<W: fmt::Write>(&self, f: &mut fmt::Formatter<W>) -> fmt::Result {
        f.write_str(match self {
            Refusal::TextTooLong => "the text has more than 65,536 bytes",
            Refusal::NoToken => "no token begins here",
            Refusal::NumberTooLarge => "the number is above 2,147,483,647",
            Refusal::UnexpectedToken => "this cannot follow here",
            Refusal::NestingTooDeep => "the nesting is too deep",
            Refusal::UnfitName => "the name is unknown, or declared twice",
            Refusal::ContextRule => "a rule about names, types or their use is broken",
            Refusal::TooManyNames => "there are too many names",
            Refusal::NoMain => "there is no main without parameters and result",
            Refusal::TooManyOperands => "the method holds more than 32 operands at once",
            Refusal::CodeTooLong => "the code has more than 8,192 bytes",
            Refusal::BufferTooShort => "the buffer is too short for the object",
            Refusal::UnfitHeader => "the header or the length of the file is unfit",
            Refusal::UnfitInstruction => "no complete instruction stands here",
            Refusal::UnfitTarget => "main, a jump or a call does not go to an instruction",
            Refusal::UnfitStore => "the length of a store is unfit",
            Refusal::StoreLengthChanged => "the length of a store has changed",
            Refusal::NoWordWaiting => "no word waits",
            Refusal::NoRoom => "there is too little room",
            Refusal::InputFull => "256 words wait already",
        })
    }
}

impl From<Verdict> for Stop {
    ghost from_gives = { λ verdict stop. stop ≡ Ended verdict };

    fn from(verdict: Verdict) -> Stop {
        Stop::Ended(verdict)
    }
}

// each_number_is_one_case states that no two cases of a list have one number.
pub fn each_number_is_one_case()
    ensures { EachNumberIsOneCase }
{}
