// Owns the check of the machine against files of cases, whose answers come from an independent implementation.
// Promises what the comparison of a case finds, and that the numbers of a tally are those of its findings.
// Does not make cases, and does not say which files there are: a program names them.
//
// check.rt: the files, and what is printed. trial.rt: what is done with each case of a file. tally.rt: what came of the cases.
// inspection.rt: one inspection. fields.rt: the fields of a line. case.rt: what an execution is given.
// execution.rt: the ways to execute it. stores.rt: the stores that it is lent. outcome.rt: what it leaves.
// host.rt: how a host feeds and drains a console between two runs.
#![tactic(auto)]

mod case;
mod check;
mod execution;
mod fields;
mod host;
mod inspection;
mod outcome;
mod stores;
pub mod tally;
mod trial;

pub use check::check_all;
pub use outcome::Ending;
