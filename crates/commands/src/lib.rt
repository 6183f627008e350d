// Owns the command line as values: what its arguments ask for, and what is printed as an answer.
// Promises the one request that arguments make, and every byte of every answer, refusal and failure.
// Does not read files, inspect, run or print: a program does that, with what it finds here.
//
// request.rt: what a command line can ask for. arguments.rt: from arguments to a request.
// numbers.rt: numbers in arguments. failure.rt: why a command gives no answer.
// answer.rt: what a command has to say. reply.rt: what is printed for it, and where.
// json.rt: answers as JSON. report.rt: answers for a reader. word_lists.rt: lists of words as text.
// listing.rt: code as text. mnemonics.rt: the names of opcodes.
// docs/command-line.md: the rules.
#![tactic(auto)]

pub mod answer;
pub mod arguments;
pub mod failure;
mod json;
pub mod listing;
mod mnemonics;
mod numbers;
pub mod reply;
mod report;
pub mod request;
mod word_lists;
