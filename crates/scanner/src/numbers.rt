ghost use Rattle.scanner.specs.Found.{Judged};
ghost use Rattle.words.specs.Laws.{worth};
ghost use Rattle.std.specs.Prelude.{◌≡◌, nat_lt};

use syntax::token::TokenKind;

// LARGEST_NUMBER is the largest number that a text can have.
const LARGEST_NUMBER: u32 = 2_147_483_647;

// is_too_large says whether a token is a number above the largest.
pub(crate) fn is_too_large(kind: Option<TokenKind<'_>>) -> bool
    ensures { Judged kind.entry result }
{
    matches!(kind, Some(TokenKind::Number(digits)) if exceeds(digits))
}

// exceeds says whether digits, of which there may be any number, are worth more than the largest number.
fn exceeds(digits: &[u8]) -> bool
    ensures { result ≡ nat_lt 2147483647 (worth 0 digits.now) }
{
    digits
        .iter()
        .try_fold(0u32, |worth, digit| {
            worth
                .checked_mul(10)?
                .checked_add(u32::from(digit.saturating_sub(b'0')))
        })
        .is_none_or(|worth| worth > LARGEST_NUMBER)
}
