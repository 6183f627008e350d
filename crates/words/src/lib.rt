// Owns the 32-bit word: its arithmetic and comparisons, its four bytes, and the text that a print writes of it.
// Promises exact results: sums, differences, products and negations wrap around, quotients are cut toward zero.
// Does not know programs, stores or consoles.
//
// arithmetic.rt: operators and relations. bytes.rt: the bytes of a word.
// printing.rt: kinds of words, and digits. text.rt: what a print writes. laws.rt: laws of the definitions.
#![tactic(auto)]

pub mod arithmetic;
pub mod bytes;
pub mod laws;
pub mod printing;
pub mod text;
