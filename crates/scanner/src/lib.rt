// Owns stage 1 of the translator: from a text to its tokens.
// Promises the one way in which a text is cut into lexemes, each the longest that begins there, or the earliest fault.
// Does not know the grammar: any list of tokens is accepted.
//
// bytes.rt: classes of bytes and runs of them. symbols.rt: keywords and operators. numbers.rt: which numbers fit.
// lexeme.rt: the longest lexeme at the front of a text. scan.rt: the tokens of a text. laws.rt: laws of the definitions.
// tests.rt: texts, and their tokens or faults.
#![tactic(auto)]

mod bytes;
pub mod laws;
mod lexeme;
mod numbers;
pub mod scan;
mod symbols;
#[cfg(test)]
mod tests;
