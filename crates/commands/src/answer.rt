ghost use Rattle.commands.specs.Report.{summary_of};
ghost use Rattle.std.specs.Prelude.{◌≡◌};

use object::checked::{Checked, ObjectFault};
use outcomes::Refusal;
pub use outcomes::Stop;

// Answer is what a command has to say about a file or a run.
#[derive(Drop)]
pub enum Answer {
    Accepted(Summary),
    FileRefused(ObjectFault),
    StartRefused(Refusal),
    Ran(Report),
}

// Summary is what the header of an accepted file says.
#[derive(Clone, Copy)]
pub struct Summary {
    pub code_size: usize,
    pub globals: usize,
    pub main: usize,
}

impl From<&Checked<'_>> for Summary {
    ghost from_gives = { λ checked summary. summary ≡ summary_of checked.now };

    fn from(checked: &Checked<'_>) -> Summary {
        Summary {
            code_size: checked.code().len(),
            globals: checked.globals(),
            main: checked.main(),
        }
    }
}

// Report is what one run did.
#[derive(Drop)]
pub struct Report {
    pub stop: Stop,
    pub steps: u64,
    pub taken: usize,
    pub bytes: Vec<u8>,
    pub globals: Vec<i32>,
}
