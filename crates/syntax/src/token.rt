use crate::symbol::Symbol;
use outcomes::Position;

// TokenKind is what a token is; a name and a number are parts of the text.
#[derive(Clone, Copy, PartialEq, Eq, Debug)]
pub enum TokenKind<'a> {
    Name(&'a [u8]),
    Number(&'a [u8]),
    Character(u8),
    Symbol(Symbol),
}

// Token is a token of a text, and the position of its first byte.
#[derive(Clone, Copy, PartialEq, Eq, Debug)]
pub struct Token<'a> {
    pub kind: TokenKind<'a>,
    pub position: Position,
}
