ghost use Rattle.std.specs.Prelude.{◌≡◌, ◌+◌, ◌^◌, ◌<◌, ◌≤◌, length, IfOk, vec_capacity};
ghost use Rattle.scanner.specs.Steps.{Room, Stepped, told};
ghost use Rattle.syntax.specs.Scanning.{ScannedAs};
ghost use Rattle.syntax.specs.Tokens.{behind, start};

use crate::lexeme::longest_lexeme;
use crate::numbers::is_too_large;
use outcomes::{Fault, Position, Refusal};
use syntax::token::Token;

// LONGEST_TEXT is how many bytes a text can have, and so how many tokens.
pub const LONGEST_TEXT: usize = 65_536;

// Scanner is what is left of a text, and the position where that begins.
#[derive(Drop)]
struct Scanner<'a> {
    rest: &'a [u8],
    position: Position,
}

// scan puts the tokens of a text in place of those given, and gives the position of its end, or it gives the earliest fault.
// Behind a fault nothing is promised of the tokens but their capacity.
pub fn scan<'a>(text: &'a [u8], tokens: &mut Vec<Token<'a>>) -> Result<Position, Fault>
    requires { 65536 ≤ vec_capacity tokens.old }
    ensures scanned { ScannedAs text.now (told tokens.new.items result) }
    ensures end { IfOk result (λ end. end ≡ behind start text.now) }
    ensures capacity { vec_capacity tokens.new ≡ vec_capacity tokens.old }
{
    if text.len() > LONGEST_TEXT {
        return Err(Fault {
            refusal: Refusal::TextTooLong,
            position: Position { line: 0, column: 0 },
        });
    }
    tokens.clear();
    let mut scanner = Scanner {
        rest: text,
        position: Position { line: 1, column: 1 },
    };
    while !scanner.rest.is_empty() {
        if let Some(token) = scanner.next()? {
            tokens.push_reserved(token);
        }
    }
    Ok(scanner.position)
}

impl<'a> Scanner<'a> {
    // next goes behind the next lexeme, and gives its token where it is one.
    // It is no Iterator's: scan needs the position behind the last lexeme too, and a trait's method can't ask for room.
    fn next(&mut self) -> Result<Option<Token<'a>>, Fault>
        requires some { 0 < length self.old.rest.now }
        requires room { Room self.old.position (length self.old.rest.now) }
        ensures { Stepped self.old self.new result }
    {
        let position = self.position;
        let fault = |refusal| Fault { refusal, position };
        let lexeme = longest_lexeme(self.rest).ok_or_else(|| fault(Refusal::NoToken))?;
        if is_too_large(lexeme.kind) {
            return Err(fault(Refusal::NumberTooLarge));
        }
        let (front, rest) = self.rest.split_at(lexeme.size);
        self.rest = rest;
        self.position = position_behind(position, front);
        // A match: with map, a scan of names or of character constants takes half as long again.
        match lexeme.kind {
            Some(kind) => Ok(Some(Token { kind, position })),
            None => Ok(None),
        }
    }
}

// position_behind is the position behind bytes of which the first stands at a position.
fn position_behind(position: Position, bytes: &[u8]) -> Position
    requires { Room position (length bytes.now) }
    ensures { result ≡ behind position bytes.now }
{
    let mut at = position;
    for byte in bytes {
        if *byte == b'\n' {
            at.line += 1;
            at.column = 1;
        } else {
            at.column += 1;
        }
    }
    at
}
