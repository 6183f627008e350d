ghost use Rattle.std.specs.Prelude.{◌≡◌, ◌<◌, length, Some, slice_index};
ghost use Rattle.scanner.specs.Found.{FoundOrNone, OnlyOperators, Tried};
ghost use Rattle.syntax.specs.Borrowed.{kind_meant};
ghost use Rattle.syntax.specs.Lexemes.{escape, namelike, plain, token_of};
ghost use Rattle.syntax.specs.Lexemes.{operator as operators};

use crate::bytes::{is_blank, is_name_part, run};
use crate::symbols::{keyword, operator};
use syntax::token::TokenKind;

// Lexeme is a front of a text: how many bytes it has, and which token it is. A blank or a comment is none.
#[derive(Clone, Copy)]
pub(crate) struct Lexeme<'a> {
    pub(crate) size: usize,
    pub(crate) kind: Option<TokenKind<'a>>,
}

// longest_lexeme is the longest lexeme that a text begins with.
// That there is a byte is what scan's loop tests: a type that says so would be made and taken apart for each lexeme.
pub(crate) fn longest_lexeme(text: &[u8]) -> Option<Lexeme<'_>>
    requires { 0 < length text.now }
    ensures { FoundOrNone text.now result }
{
    let first = text[0];
    if first.is_ascii_alphabetic() {
        let word = run(text, is_name_part);
        Some(Lexeme {
            size: word.len(),
            kind: Some(word_kind(word)),
        })
    } else if first.is_ascii_digit() {
        let digits = run(text, |byte| byte.is_ascii_digit());
        Some(Lexeme {
            size: digits.len(),
            kind: Some(TokenKind::Number(digits)),
        })
    } else if is_blank(first) {
        Some(Lexeme {
            size: 1,
            kind: None,
        })
    } else if first == b'\'' {
        longest_constant(text)
    } else if text.starts_with(b"//") {
        let comment = run(text, |byte| byte != b'\n');
        Some(Lexeme {
            size: comment.len(),
            kind: None,
        })
    } else {
        longest_operator(text)
    }
}

// word_kind tells keywords from names.
fn word_kind(word: &[u8]) -> TokenKind<'_>
    ensures { Some (kind_meant result) ≡ token_of namelike word.now }
{
    // A match: map_or gets no proof where its result borrows what its argument doesn't.
    match keyword(word) {
        Some(symbol) => TokenKind::Symbol(symbol),
        None => TokenKind::Name(word),
    }
}

fn longest_operator(text: &[u8]) -> Option<Lexeme<'_>>
    requires { OnlyOperators text.now }
    ensures { FoundOrNone text.now result }
{
    operator_of(text, 2).or_else(|| operator_of(text, 1))
}

// operator_of is the first bytes of a text where they are an operator.
fn operator_of(text: &[u8], size: usize) -> Option<Lexeme<'_>>
    ensures { Tried operators size text.now result }
{
    let symbol = operator(text.get(..size)?)?;
    Some(Lexeme {
        size,
        kind: Some(TokenKind::Symbol(symbol)),
    })
}

fn longest_constant(text: &[u8]) -> Option<Lexeme<'_>>
    requires some { 0 < length text.now }
    requires quote { slice_index text.now 0 ≡ 39 }
    ensures { FoundOrNone text.now result }
{
    let (size, value) = match *text {
        [b'\'', b'\\', letter, b'\'', ..] => (4, escape_value(letter)?),
        [b'\'', byte, b'\'', ..] => (3, plain_value(byte)?),
        _ => return None,
    };
    Some(Lexeme {
        size,
        kind: Some(TokenKind::Character(value)),
    })
}

// plain_value is the value of a byte that stands for itself.
fn plain_value(byte: u8) -> Option<u8>
    ensures { result ≡ plain byte }
{
    match byte {
        b'\\' => None,
        b' '..=b'~' => Some(byte),
        _ => None,
    }
}

// escape_value is the value of a letter behind a backslash.
fn escape_value(letter: u8) -> Option<u8>
    ensures { result ≡ escape letter }
{
    // The letter is read as a character, as the rule of the language says.
    match letter as char {
        'n' => Some(b'\n'),
        'r' => Some(b'\r'),
        't' => Some(b'\t'),
        _ => None,
    }
}
