use crate::execution::{Way, executed};
use crate::inspection::inspected;
use crate::outcome::Ending;
use crate::tally::{Finding, compared};
use std::alloc::Global;
use std::fmt;

// Trial is what is done with each case of a file.
#[derive(Clone, Copy)]
pub(crate) enum Trial {
    Inspection,
    Execution(Way, Ending),
}

impl fmt::Display for Trial {
    fn fmt<W: fmt::Write>(&self, f: &mut fmt::Formatter<W>) -> fmt::Result {
        match self {
            Trial::Inspection => f.write_str("inspected"),
            Trial::Execution(way, _) => write!(f, "{way}"),
        }
    }
}

impl Trial {
    // of_case is what comes of a case.
    pub(crate) fn of_case(
        self,
        heap: Global,
        given: &str,
        expected: &str,
    ) -> anyhow::Result<Finding> {
        let found = match self {
            Trial::Inspection => inspected(heap, given)?,
            // The room that a case gives makes it pause for output, and a RingConsole has a room of its own.
            Trial::Execution(Way::SmallRunsOverRings, _) if expected.starts_with("paused 3 ") => {
                return Ok(Finding::LeftOut);
            }
            Trial::Execution(way, ending) => executed(heap, given, way, ending)?,
        };
        Ok(compared(found, expected))
    }
}
