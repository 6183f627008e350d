ghost use Rattle.std.specs.Prelude.{◌≤◌, IfOk};

use crate::case::{Case, case_in};
use crate::host::Host;
use crate::outcome::{Driven, Ending, Outcome};
use crate::stores::Stores;
use anyhow::{Context, anyhow};
use console::{Console, RingConsole, SliceConsole};
use machine::advance::advance;
use machine::machine::{Machine, Progress};
use machine::start::start;
use object::inspect::inspect;
use outcomes::{Numbered, Pause, Stop};
use std::alloc::{AllocError, Global};
use std::fmt;

// MOST_RUNS is how many runs an execution may have.
const MOST_RUNS: u64 = 1_000_000;

// Way is how an execution is cut into runs, and beside which console.
#[derive(Clone, Copy)]
pub(crate) enum Way {
    OneRun,
    SmallRuns,
    SmallRunsOverRings,
}

impl fmt::Display for Way {
    fn fmt<W: fmt::Write>(&self, f: &mut fmt::Formatter<W>) -> fmt::Result {
        f.write_str(match self {
            Way::OneRun => "in one run",
            Way::SmallRuns => "in small runs",
            Way::SmallRunsOverRings => "in small runs over rings",
        })
    }
}

// BUDGETS are those of small runs, in turn.
const BUDGETS: [u64; 5] = [1, 2, 3, 7, 64];

impl Way {
    // budget is the budget of the run with this number, where so many steps are left.
    fn budget(self, run: u64, left: u64) -> u64
        ensures { result ≤ left }
    {
        match self {
            Way::OneRun => left,
            Way::SmallRuns | Way::SmallRunsOverRings => left.min(BUDGETS[(run % 5) as usize]),
        }
    }
}

// goes_on tells whether another run may do more than the one that paused.
fn goes_on(pause: Pause, left: u64, attended: bool) -> bool {
    match pause {
        Pause::Budget => left > 0,
        Pause::Input | Pause::Output => attended,
    }
}

// Execution is a machine in its stores, the way to run it, and how many steps it may make.
#[derive(Drop)]
struct Execution<'a> {
    machine: Machine<'a>,
    stores: Stores,
    way: Way,
    budget: u64,
}

impl Execution<'_> {
    // drive makes runs until the program ends, the budget is spent, or a pause stays though attend saw to the console.
    fn drive<C: Console, F: FnMut(&mut C) -> Result<bool, AllocError>>(
        self,
        console: &mut C,
        mut attend: F,
    ) -> anyhow::Result<Driven>
        requires { F.IsAlwaysCallable attend }
        ensures { IfOk result (λ driven. driven.steps ≤ self.entry.budget) }
    {
        let Execution {
            mut machine,
            mut stores,
            way,
            budget,
        } = self;
        let mut left = budget;
        for run in 0..MOST_RUNS {
            match advance(machine, way.budget(run, left), &mut stores.lent(), console) {
                Progress::Ended { verdict, steps } => {
                    return Ok(Driven {
                        stop: Stop::Ended(verdict),
                        steps: budget - (left - steps),
                        stores,
                    });
                }
                Progress::Paused {
                    machine: paused,
                    pause,
                    steps,
                } => {
                    left -= steps;
                    let attended = attend(console)?;
                    if !goes_on(pause, left, attended) {
                        return Ok(Driven {
                            stop: Stop::Paused(pause),
                            steps: budget - left,
                            stores,
                        });
                    }
                    machine = paused;
                }
                Progress::Refused { .. } => return Err(anyhow!("a run is refused")),
            }
        }
        Err(anyhow!("there are too many runs"))
    }

    // over_slices makes the runs beside a SliceConsole.
    fn over_slices(self, heap: Global, words: &[i32], room: usize) -> anyhow::Result<Outcome> {
        let mut buffer = vec![in heap; 0; room]?;
        let mut console = SliceConsole::new(words, buffer.as_mut_slice());
        let driven = self.drive(&mut console, |_| Ok(false))?;
        Ok(Outcome {
            driven,
            taken: console.taken(),
            bytes: console.written_bytes().to_vec(heap)?,
        })
    }

    // over_rings makes the runs beside a RingConsole, which a host feeds and drains.
    fn over_rings(self, heap: Global, words: &[i32]) -> anyhow::Result<Outcome> {
        let mut host = Host {
            words,
            bytes: Vec::new(heap),
        };
        let mut console = RingConsole::new();
        let driven = self.drive(&mut console, |ring| host.attend(ring))?;
        let fed = words.len().saturating_sub(host.words.len());
        host.drain(&mut console, &mut [0; 512])?;
        Ok(Outcome {
            driven,
            taken: fed.saturating_sub(console.words_waiting()),
            bytes: host.bytes,
        })
    }
}

// executed is the outcome of a case, in the words of a file of executions.
pub(crate) fn executed(
    heap: Global,
    given: &str,
    way: Way,
    ending: Ending,
) -> anyhow::Result<String> {
    let Case {
        object,
        words,
        mut stores,
        room,
        budget,
    } = case_in(heap, given)?;
    let checked = inspect(&object).ok().context("an object is refused")?;
    let globals = checked.globals();
    let machine = match start(checked, &mut stores.lent()) {
        Ok(machine) => machine,
        Err(refusal) => return Ok(format!(in heap; "refused {}", refusal.number())?),
    };
    let execution = Execution {
        machine,
        stores,
        way,
        budget,
    };
    let outcome = match way {
        Way::OneRun | Way::SmallRuns => execution.over_slices(heap, &words, room)?,
        Way::SmallRunsOverRings => execution.over_rings(heap, &words)?,
    };
    outcome.told(heap, globals, ending)
}
