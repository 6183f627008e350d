// Owns the calls for programs in other languages: numbers and slices only.
// Promises that a call tests whatever the layers below ask for, so that no caller can break a promise.
// Does not allocate. The crate foreign_c gives them their C names; bench/ calls it, hosts in C and Rust are to follow.
#![tactic(auto)]

ghost use Rattle.foreign.specs.Reports.{Answered, steps_of, stop_of, verdict_of};
ghost use Rattle.machine.specs.Machines.{stores};
ghost use Rattle.std.specs.Prelude.{◌≡◌};

use console::SliceConsole;
use machine::Stores;
use machine::advance::advance;
use machine::machine::Progress;
use machine::start::start;
use object::inspect::inspect;
use outcomes::Numbered;

// Summary is what a run came to, in numbers, since the C interface has no enums.
#[derive(Clone, Copy)]
pub struct Summary {
    pub stop: u64,
    pub verdict: u64,
    pub steps: u64,
}

// summarize tells a run's answer in numbers, and lets the machine go.
pub fn summarize(progress: Progress<'_>) -> Summary
    ensures { (result.stop ≡ stop_of progress.entry) × ((result.verdict ≡ verdict_of progress.entry) × (result.steps ≡ steps_of progress.entry)) }
{
    match progress {
        Progress::Ended { verdict, steps } => Summary {
            stop: 0,
            verdict: verdict.number() as u64,
            steps,
        },
        Progress::Paused {
            machine: _,
            pause,
            steps,
        } => Summary {
            stop: pause.number() as u64,
            verdict: 0,
            steps,
        },
        Progress::Refused {
            refusal,
            machine: _,
        } => Summary {
            stop: refusal.number() as u64,
            verdict: 0,
            steps: 0,
        },
    }
}

// jelpuma_run_object inspects an object file, starts it in four stores and runs it once over words and out.
// It answers 0, and in the report how the run stopped, its verdict, steps, words taken and bytes written; or the number of a refusal, and its offset first in the report; or 255 for a report of fewer than five numbers.
// Answers and refusals are numbers, and the stores four slices, since the C interface has no enums and no structs of ours.
pub fn jelpuma_run_object(
    object: &[u8],
    words: &[i32],
    data: &mut [i32],
    heap: &mut [i32],
    call: &mut [i32],
    operand: &mut [i32],
    out: &mut [u8],
    budget: u64,
    report: &mut [u64],
) -> u32
    ensures { Answered result object.now (stores «data».old heap.old call.old operand.old)
        (stores «data».new heap.new call.new operand.new) report.new }
{
    if report.len() < 5 {
        return 255;
    }
    let checked = match inspect(object) {
        Ok(checked) => checked,
        Err(fault) => {
            report[0] = fault.offset as u64;
            return fault.refusal.number() as u32;
        }
    };
    let mut stores = Stores {
        data,
        heap,
        call,
        operand,
    };
    let machine = match start(checked, &mut stores) {
        Ok(machine) => machine,
        Err(refusal) => {
            report[0] = 0;
            return refusal.number() as u32;
        }
    };
    let mut console = SliceConsole::new(words, out);
    let answer = summarize(advance(machine, budget, &mut stores, &mut console));
    report[0] = answer.stop;
    report[1] = answer.verdict;
    report[2] = answer.steps;
    report[3] = console.taken() as u64;
    report[4] = console.written_bytes().len() as u64;
    0
}
