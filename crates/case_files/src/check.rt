use crate::execution::Way;
use crate::outcome::Ending;
use crate::tally::{Finding, Tally};
use crate::trial::Trial;
use anyhow::{Context, ensure};
use std::{fs, slice};

// SHOWN is how many differences are printed for a file.
const SHOWN: usize = 3;

// check_file tries each case of a file, and prints the first differences and a tally; it tells whether no case differs.
fn check_file(rt: &HostRuntime, file: &str, trial: Trial) -> anyhow::Result<bool> {
    let text = fs::read_to_string(rt, file)?;
    let mut tally = Tally::of(&[]);
    let mut shown = 0;
    // the first line explains the others
    for (number, line) in text.as_str().lines().enumerate().skip(1) {
        let (given, expected) = line.split_once(" => ").context("a line has no answer")?;
        let finding = trial.of_case(rt.alloc(), given, expected)?;
        if let Finding::Differs(found) = &finding
            && shown < SHOWN
        {
            shown += 1;
            println!(rt;
                "{file}, {trial}, case {number}: {expected} was expected, {found} was found"
            )?;
        }
        // Each finding is counted when it is found: a list of all would grow with the file, and with what the cases write.
        tally = tally.and(Tally::of(slice::from_ref(&finding)));
    }
    println!(rt; "{file}, {trial}: {tally}")?;
    Ok(tally.fit == tally.cases)
}

// check_all tries the cases of inspections.txt, and those of files of executions in each way, and fails if a case differs.
// No clause can say what a file holds and what is printed: compared and Tally::of say what is counted.
pub fn check_all(rt: &HostRuntime, files: &[&str], ending: Ending) -> anyhow::Result<()> {
    let mut fit = check_file(rt, "inspections.txt", Trial::Inspection)?;
    for file in files {
        for way in [Way::OneRun, Way::SmallRuns, Way::SmallRunsOverRings] {
            fit &= check_file(rt, file, Trial::Execution(way, ending))?;
        }
    }
    ensure!(fit, "some cases differ");
    Ok(())
}
