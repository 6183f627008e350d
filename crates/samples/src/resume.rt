ghost use Rattle.machine.specs.Machines.{SameStores, contents};
ghost use Rattle.machine.specs.Runs.{view};
ghost use Rattle.samples.specs.Resuming.{ResumedAs, machine_of};
ghost use Rattle.std.specs.Prelude.{◌≡◌};

use console::Console;
use machine::Stores;
use machine::advance::advance;
use machine::machine::{Machine, Progress};

// onward is the machine that a run left, to go on with; None where the program ended.
pub fn onward<'a>(progress: Progress<'a>) -> Option<Machine<'a>>
    ensures { result ≡ machine_of progress.entry }
{
    match progress {
        Progress::Ended { .. } => None,
        Progress::Paused { machine, .. } => Some(machine),
        Progress::Refused { machine, .. } => Some(machine),
    }
}

// resume makes another run with the machine that a run left; None where the program ended.
pub fn resume<'a, C: Console>(
    progress: Progress<'a>,
    budget: u64,
    stores: &mut Stores<'_>,
    console: &mut C,
) -> Option<Progress<'a>>
    ensures same { SameStores stores.old stores.new }
    ensures resumed { ResumedAs result (machine_of progress.entry) budget
        (contents stores.old) (view (C.waiting console.old) (C.written console.old) (C.room console.old))
        (contents stores.new) (view (C.waiting console.new) (C.written console.new) (C.room console.new)) }
{
    let machine = onward(progress)?;
    Some(advance(machine, budget, stores, console))
}
