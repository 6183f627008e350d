ghost use Rattle.machine.specs.Answers.{AdvancedAs};
ghost use Rattle.machine.specs.Machines.{SameStores, contents};
ghost use Rattle.machine.specs.Runs.{view};
ghost use Rattle.machine.specs.Turns.{Drove};

use crate::lengths::Lengths;
use crate::machine::{Machine, Progress};
use crate::turn::turn;
use console::Console;
use outcomes::{Pause, Refusal, Stop};
use step::interpreter::{Interpreter, Stores};

// Rest is how many steps were made, and why there was no other.
#[derive(Clone, Copy)]
pub(crate) struct Rest {
    steps: u64,
    stop: Stop,
}

// drive makes steps until one is not made, or the budget is spent.
fn drive<C: Console>(machine: &mut Interpreter<'_>, budget: u64, console: &mut C) -> Rest
    ensures { Drove result budget
        machine.old (view (C.waiting console.old) (C.written console.old) (C.room console.old))
        machine.new (view (C.waiting console.new) (C.written console.new) (C.room console.new)) }
{
    for steps in 0..budget {
        if let Err(stop) = turn(machine, console) {
            return Rest { steps, stop };
        }
    }
    Rest {
        steps: budget,
        stop: Stop::Paused(Pause::Budget),
    }
}

// advance runs a machine in its stores, beside any console, for at most budget steps.
pub fn advance<'a, C: Console>(
    machine: Machine<'a>,
    budget: u64,
    stores: &mut Stores<'_>,
    console: &mut C,
) -> Progress<'a>
    ensures same { SameStores stores.old stores.new }
    ensures advanced { AdvancedAs result machine.entry budget
        (contents stores.old) (view (C.waiting console.old) (C.written console.old) (C.room console.old))
        (contents stores.new) (view (C.waiting console.new) (C.written console.new) (C.room console.new)) }
{
    if machine.lengths != Lengths::of(stores) {
        return Progress::Refused {
            refusal: Refusal::StoreLengthChanged,
            machine,
        };
    }
    let Machine {
        code,
        registers,
        lengths,
    } = machine;
    let mut interpreter = Interpreter {
        code,
        pc: registers.pc,
        frame: registers.frame,
        top: registers.top,
        height: registers.height,
        free: registers.free,
        data: &mut *stores.data,
        heap: &mut *stores.heap,
        call: &mut *stores.call,
        operand: &mut *stores.operand,
    };
    let Rest { steps, stop } = drive(&mut interpreter, budget, console);
    let registers = interpreter.registers();
    match stop {
        Stop::Ended(verdict) => Progress::Ended {
            verdict,
            steps: steps + 1,
        },
        Stop::Paused(pause) => Progress::Paused {
            machine: Machine {
                code,
                registers,
                lengths,
            },
            pause,
            steps,
        },
    }
}
