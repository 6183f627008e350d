ghost use Rattle.object.specs.Fit.{WellFormed};
ghost use Rattle.object.specs.Inspection.{FoundIn, InspectionHasOneAnswer};
ghost use Rattle.std.specs.Prelude.{◌≡◌};

use crate::checked::{Checked, ObjectFault};
use crate::header::read_header;
use crate::starts::Starts;
use outcomes::Refusal;

// inspect accepts exactly the object files: a Checked stands for these bytes, any other file is refused.
pub fn inspect(bytes: &[u8]) -> Result<Checked<'_>, ObjectFault>
    ensures { FoundIn bytes.now result }
{
    let header = read_header(bytes)?;
    let mut marks = [false; 8192];
    let starts = Starts::of(header.code, &mut marks)?;
    if let Some(offset) = starts.first_unfit(header.main) {
        return Err(ObjectFault {
            refusal: Refusal::UnfitTarget,
            offset,
        });
    }
    Ok(Checked {
        code: header.code,
        globals: header.globals,
        main: header.main,
    })
}

impl<'a> Checked<'a> {
    // code gives the bytes behind the header.
    pub fn code(&self) -> &'a [u8]
        ensures { result.now ≡ self.now.code }
    {
        self.code
    }

    // globals gives the number of global words.
    pub fn globals(&self) -> usize
        ensures { result ≡ self.now.globals }
    {
        self.globals
    }

    // main gives the main address, and says what every Checked keeps: the object is well formed.
    pub fn main(&self) -> usize
        ensures value { result ≡ self.now.main }
        ensures formed { WellFormed self.now }
    {
        self.main
    }
}

// inspection_has_one_answer states that no file has two answers.
pub fn inspection_has_one_answer()
    ensures { InspectionHasOneAnswer }
{}
