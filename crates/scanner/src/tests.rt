use crate::scan::{LONGEST_TEXT, scan};
use outcomes::{Fault, Position, Refusal};
use std::test::Fail;
use syntax::symbol::Symbol;
use syntax::token::{Token, TokenKind};

// token is a token at a line and a column.
fn token(kind: TokenKind<'_>, line: u32, column: u32) -> Token<'_> {
    Token {
        kind,
        position: Position { line, column },
    }
}

// refused is the answer for a text that is refused at a column of its first line.
fn refused(refusal: Refusal, column: u32) -> Result<Position, Fault> {
    Err(Fault {
        refusal,
        position: Position { line: 1, column },
    })
}

#[test]
fn tokens_and_the_end(rt: HostRuntime) -> Result<(), Fail> {
    let mut tokens = Vec::with_capacity(rt.alloc(), LONGEST_TEXT)?;
    let end = scan(b"if x_1 12ab // so\n\t''' '\\n'>=", &mut tokens);
    assert_eq!(rt;
        end,
        Ok(Position {
            line: 2,
            column: 12
        })
    );
    let expected = [
        token(TokenKind::Symbol(Symbol::If), 1, 1),
        token(TokenKind::Name(b"x_1"), 1, 4),
        token(TokenKind::Number(b"12"), 1, 8),
        token(TokenKind::Name(b"ab"), 1, 10),
        token(TokenKind::Character(39), 2, 2),
        token(TokenKind::Character(10), 2, 6),
        token(TokenKind::Symbol(Symbol::GreaterOrEqual), 2, 10),
    ];
    assert_eq!(rt; tokens.as_slice(), expected.as_slice());
    Ok(())
}

// The texts and their answers are those of docs/language.md.
#[test]
fn earliest_faults(rt: HostRuntime) -> Result<(), Fail> {
    let mut tokens = Vec::with_capacity(rt.alloc(), LONGEST_TEXT)?;
    let empty_constant = b"class P { void main() { print(''); } }";
    assert_eq!(rt;
        scan(empty_constant, &mut tokens),
        refused(Refusal::NoToken, 31)
    );
    let large_number = b"class P { void main() { print(2147483648); } }";
    assert_eq!(rt;
        scan(large_number, &mut tokens),
        refused(Refusal::NumberTooLarge, 31)
    );
    assert_eq!(rt; scan(b"} } } #", &mut tokens), refused(Refusal::NoToken, 7));
    Ok(())
}
