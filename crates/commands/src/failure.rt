ghost use Rattle.commands.specs.Failures.{failure_text};
ghost use Rattle.commands.specs.declared.failure.Failure.TheVariants.{NoMemory};
ghost use Rattle.std.specs.Prelude.{◌≡◌, Some};

use std::alloc::{AllocError, AllocFailed};
use std::fmt;

// Failure is why a command gives no answer and no refusal.
#[derive(Drop)]
pub enum Failure {
    Unreadable(String),
    Unclear(String),
    NotText,
    Missing,
    NoMemory,
}

// From is written by hand: clauses rest on from_gives, which a derived one has not.
impl From<AllocError> for Failure {
    ghost from_gives = { λ _ r. r ≡ NoMemory };

    fn from(_error: AllocError) -> Failure {
        Failure::NoMemory
    }
}

impl<T: Drop> From<AllocFailed<T>> for Failure {
    ghost from_gives = { λ _ r. r ≡ NoMemory };

    fn from(_error: AllocFailed<T>) -> Failure {
        Failure::NoMemory
    }
}

// USAGE is the commands that there are.
const USAGE: &str = "\
jelpuma
jelpuma check OBJECT [--json]
jelpuma list OBJECT
jelpuma run OBJECT [WORD..] [--budget N] [--heap N] [--call N] [--operand N] [--room N] [--json]
";

impl fmt::Display for Failure {
    ghost output = { λ f. Some (failure_text f) };

    fn fmt<W: fmt::Write>(&self, f: &mut fmt::Formatter<W>) -> fmt::Result {
        match self {
            Failure::Unreadable(path) => writeln!(f, "jelpuma: cannot read {path}"),
            Failure::Unclear(argument) => {
                write!(f, "jelpuma: cannot understand {argument}\n{USAGE}")
            }
            Failure::NotText => write!(f, "jelpuma: an argument is no UTF-8 text\n{USAGE}"),
            Failure::Missing => write!(f, "jelpuma: an argument is missing\n{USAGE}"),
            Failure::NoMemory => writeln!(f, "jelpuma: not enough memory"),
        }
    }
}
