ghost use Rattle.std.specs.Prelude.{◌≡◌, ◌+◌, ◌<◌, ◌≤◌, min, ◌++◌, length, take, ℤ};
ghost use Rattle.std.specs.Fmt.{signed_decimal};
ghost use Rattle.words.specs.Printing as spec;

use crate::bytes::low_byte;
use crate::printing::{Kind, Text, write_digits};

// write_number writes a word in decimal to the end of out, and gives where it begins.
fn write_number(value: i32, out: &mut [u8; 255]) -> usize
    ensures text { out.new ≡ take result out.old ++ signed_decimal value }
    ensures place { result + length (signed_decimal value) ≡ 255 }
{
    let at = write_digits(value.unsigned_abs(), out);
    if value < 0 {
        out[at - 1] = b'-';
        at - 1
    } else {
        at
    }
}

// write_shown writes a word as its kind is printed to the end of out, and gives where it begins.
fn write_shown(kind: Kind, value: i32, out: &mut [u8; 255]) -> usize
    ensures text { out.new ≡ take result out.old ++ spec.shown kind value }
    ensures place { result + length (spec.shown kind value) ≡ 255 }
{
    match kind {
        Kind::Int => write_number(value, out),
        Kind::Char => {
            out[254] = low_byte(value);
            254
        }
    }
}

// clamped gives the width that counts.
fn clamped(width: i32) -> usize
    ensures value { result ≡ spec.clamped width }
    ensures bound { result ≤ 255 }
{
    width.clamp(0, 255) as usize
}

// printed gives the bytes that a print of a value at a width writes.
pub fn printed(kind: Kind, value: i32, width: i32) -> Text
    ensures { spec.text_of result ≡ spec.printed_as kind value width }
{
    let mut bytes = [b' '; 255];
    let begin = write_shown(kind, value, &mut bytes);
    let from = begin.min(255 - clamped(width));
    Text { bytes, from }
}

impl Text {
    // as_bytes gives the bytes.
    pub fn as_bytes(&self) -> &[u8]
        ensures { result.now ≡ spec.text_of self.now }
    {
        &self.bytes[self.from..]
    }
}
