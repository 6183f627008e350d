// Owns one step of the machine: the registers and lent stores of one that runs, and what each instruction does to them.
// Promises that a step is exactly what the definitions say, and that a step that ends with a verdict changes nothing.
// Does not take words or write bytes: it says which are wanted. Does not allocate.
//
// interpreter.rt: registers, stores and code of a machine that runs. registers.rt: registers, and what a step comes to.
// one_step.rt: a step, and the ends of a read and a print. perform.rt: from an instruction to its method.
// operands.rt, variables.rt, arrays.rt, calls.rt: a method for each instruction. laws.rt: a law of the definitions. blocks.rt: places in a store, and words written over it.
#![tactic(auto)]

mod arrays;
mod blocks;
mod calls;
pub mod interpreter;
pub mod laws;
pub mod one_step;
mod operands;
mod perform;
pub mod registers;
mod variables;
