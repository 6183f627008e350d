ghost use Rattle.std.specs.Prelude.{◌≡◌, ◌+◌, ◌≤◌, ◌++◌, length, take, decimal};

// Kind tells how a word is read, kept in an array and printed.
#[derive(Clone, Copy, PartialEq, Eq, Debug)]
pub enum Kind {
    Int,
    Char,
}

// Text is what one print writes, at most 255 bytes.
// Digits come from the last to the first, so it stands at the end of its bytes, where no vector has its items.
#[derive(Drop)]
pub struct Text {
    pub(crate) bytes: [u8; 255],
    pub(crate) from: usize,
    ghost fits: { from ≤ 255 },
}

// write_digits writes n in decimal to the end of out, and gives where its digits begin.
// With itoa a print took 1.4 times as long by its write_digits, and 1.7 times as long by its Buffer and a copy.
pub(crate) fn write_digits(n: u32, out: &mut [u8; 255]) -> usize
    ensures text { out.new ≡ take result out.old ++ decimal n }
    ensures place { result + length (decimal n) ≡ 255 }
    ensures short { length (decimal n) ≤ 10 }
{
    let mut at = 254;
    let mut rest = n;
    while rest >= 10 {
        out[at] = b'0' + (rest % 10) as u8;
        rest /= 10;
        at -= 1;
    }
    out[at] = b'0' + rest as u8;
    at
}
