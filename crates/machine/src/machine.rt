ghost use Rattle.std.specs.Prelude.{◌≤◌, length};

// Lengths has a name here too, beside the machine that keeps them.
pub use crate::lengths::Lengths;
use outcomes::{Pause, Refusal, Verdict};
use step::registers::Registers;

// Machine is a machine between two runs. Only start and advance make one, and advance uses it up.
#[derive(Drop)]
pub struct Machine<'a> {
    pub(crate) code: &'a [u8],
    pub(crate) registers: Registers,
    pub(crate) lengths: Lengths,
    ghost code_short: { length code.now ≤ 8192 },
    ghost call_short: { lengths.call ≤ 1048576 },
    ghost heap_short: { lengths.heap ≤ 1048576 },
    ghost height_within: { registers.height ≤ lengths.operand },
    ghost top_within: { registers.top ≤ lengths.call },
    ghost free_within: { registers.free ≤ lengths.heap },
}

// Progress is the answer of a run.
// A refusal is a case and no Err: like a pause it hands the machine on, and a host that goes on takes it from either in one match.
#[derive(Drop)]
pub enum Progress<'a> {
    // Ended is the end of the program: the verdict, and how many steps this run counted.
    Ended {
        verdict: Verdict,
        steps: u64,
    },
    // Paused is a run that stopped early: the machine goes on in another run.
    Paused {
        machine: Machine<'a>,
        pause: Pause,
        steps: u64,
    },
    // Refused is a run that made no step, since a store's length was not that of the start.
    Refused {
        refusal: Refusal,
        machine: Machine<'a>,
    },
}
