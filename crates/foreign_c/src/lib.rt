// Owns the names that programs in other languages link with.
// Promises for each call what the crate foreign promises for the function of the same name.
// Does nothing of its own.
#![tactic(auto)]

ghost use Rattle.foreign.specs.Reports.{Answered};
ghost use Rattle.machine.specs.Machines.{stores};

// jelpuma_run_object is foreign::jelpuma_run_object, by its C name. Four slices and a number: the C interface has no structs of ours and no enums.
#[unsafe(no_mangle)]
pub extern "C" fn jelpuma_run_object(
    object: &[u8],
    words: &[i32],
    data: &mut [i32],
    heap: &mut [i32],
    call: &mut [i32],
    operand: &mut [i32],
    out: &mut [u8],
    budget: u64,
    report: &mut [u64],
) -> u32
    ensures { Answered result object.now (stores «data».old heap.old call.old operand.old)
        (stores «data».new heap.new call.new operand.new) report.new }
{
    foreign::jelpuma_run_object(
        object, words, data, heap, call, operand, out, budget, report,
    )
}
