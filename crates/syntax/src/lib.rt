// Owns tokens and trees: what a text is cut into, and what a tree of the grammar spells.
// Promises that a list of tokens has at most one tree. That a text is cut in one way, the crate scanner promises.
// Does not say what names mean: the crate context does that.
//
// symbol.rt: keywords and operators. token.rt: tokens as parts of a text. laws.rt: laws of the definitions.
#![tactic(auto)]

pub mod laws;
pub mod symbol;
pub mod token;
