// Owns examples of hosts: how an object is begun, gone on with and executed, and what a wrong host is refused for.
// Promises that execute does in many small runs what one run with the whole budget does.
// Does not allocate.
//
// src/begin.rt: a machine of a file. src/resume.rt: another run. src/execute.rt: all runs of an execution.
// src/tests.rt: the example of docs/object-file.md, executed; a refused start; a refused run.
// specs/: what each of the three files promises. must-fail/: hosts that are not proved. refused/: hosts that do not compile.
#![tactic(auto)]

pub mod begin;
pub mod execute;
pub mod resume;
#[cfg(test)]
mod tests;
