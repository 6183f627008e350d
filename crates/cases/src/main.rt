// Owns the choice of the files of cases that the machine is checked against.
// Promises to print for each file how many cases were tried and how many came out as expected, and to fail if one did not.
// Does not try the cases: case_files does.
//
// data/inspections.txt: objects. data/starts.txt: stores whose lengths are at a bound. data/runs.txt: executions of every kind.
// data/exchanges.txt: executions that take more words or write more bytes than a RingConsole holds, and rooms at a bound.
#![tactic(auto)]

use case_files::{Ending, check_all};

fn main(rt: HostRuntime) -> anyhow::Result<()> {
    let files = ["starts.txt", "runs.txt", "exchanges.txt"];
    check_all(&rt, &files, Ending::Globals)
}
