// Owns the trace of a core program: what it takes and writes on an input, and how it ends.
// Promises that there is one trace: what is known of it stays known, each place has one event, and an end is the end.
// Does not know code, object files or machines.
//
// specs/World.antt: events, arrays and what a program touches. specs/Evaluation.antt: what each form does. specs/Trace.antt: the trace.
#![tactic(auto)]

pub mod laws;
