// Owns the machine between runs: how it starts from an inspected object, and how a run goes on from where the last one paused.
// Promises that a run is exactly the n-fold step beside its console, and why it stops; and what each store holds then.
// Does not allocate: code and stores are lent. Does not translate or inspect.
//
// machine.rt: the machine and the answers. lengths.rt: the lengths of stores, and which suffice. start.rt: how a machine begins.
// turn.rt: one step beside a console. advance.rt: runs. laws.rt: laws of runs and of new arrays.
#![tactic(auto)]

pub mod advance;
pub mod laws;
pub mod lengths;
pub mod machine;
pub mod start;
mod turn;

pub use step::interpreter::Stores;
