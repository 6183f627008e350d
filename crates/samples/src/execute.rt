ghost use Rattle.std.specs.Prelude.{◌≡◌, ◌<◌, Decides};
ghost use Rattle.machine.specs.Machines.{SameStores, contents, lengths_of, state_in};
ghost use Rattle.machine.specs.Runs.{scene, view};
ghost use Rattle.outcomes.specs.declared.Pause.TheVariants.{Budget};
ghost use Rattle.samples.specs.Executing.{Drove, ExecutedAs};

use crate::begin::{Unfit, begin};
use console::Console;
use machine::Stores;
use machine::advance::advance;
use machine::machine::{Machine, Progress};
use outcomes::Pause;
pub use outcomes::Stop;

// PORTION is the budget of each run but the last.
const PORTION: u64 = 10;

// Report is how far an execution came: why it stopped, and the steps of all its runs.
#[derive(Clone, Copy, PartialEq, Eq, Debug)]
pub struct Report {
    pub stop: Stop,
    pub steps: u64,
}

// goes_on tells whether another run is to follow: the last one spent its own budget, and steps of the whole budget are left.
fn goes_on(pause: Pause, made: u64, budget: u64) -> bool
    ensures { Decides result ((pause ≡ Budget) × (made < budget)) }
{
    match pause {
        Pause::Budget => made < budget,
        Pause::Input | Pause::Output => false,
    }
}

// drive makes small runs until the program ends, the budget is spent, or no word waits or the room is too small.
fn drive<C: Console>(
    machine: Machine<'_>,
    budget: u64,
    stores: &mut Stores<'_>,
    console: &mut C,
) -> Report
    requires { lengths_of (contents stores.old) ≡ machine.lengths }
    ensures same { SameStores stores.old stores.new }
    ensures drove { Drove result machine.entry.code.now budget
        (scene (state_in machine.entry (contents stores.old)) (view (C.waiting console.old) (C.written console.old) (C.room console.old)))
        (contents stores.new) (view (C.waiting console.new) (C.written console.new) (C.room console.new)) }
{
    let mut machine = machine;
    let mut made: u64 = 0;
    loop {
        let portion = (budget - made).min(PORTION);
        match advance(machine, portion, stores, console) {
            Progress::Ended { verdict, steps } => {
                return Report {
                    stop: Stop::Ended(verdict),
                    steps: made + steps,
                };
            }
            Progress::Paused {
                machine: paused,
                pause,
                steps,
            } => {
                made += steps;
                if !goes_on(pause, made, budget) {
                    return Report {
                        stop: Stop::Paused(pause),
                        steps: made,
                    };
                }
                machine = paused;
            }
            Progress::Refused { .. } => unreachable(),
        }
    }
}

// execute begins a file's object in four stores, and runs it beside a console for at most budget steps.
pub fn execute<C: Console>(
    object: &[u8],
    budget: u64,
    stores: &mut Stores<'_>,
    console: &mut C,
) -> Result<Report, Unfit>
    ensures same { SameStores stores.old stores.new }
    ensures executed { ExecutedAs result object.now budget
        (contents stores.old) (view (C.waiting console.old) (C.written console.old) (C.room console.old))
        (contents stores.new) (view (C.waiting console.new) (C.written console.new) (C.room console.new)) }
{
    let machine = begin(object, stores)?;
    Ok(drive(machine, budget, stores, console))
}
