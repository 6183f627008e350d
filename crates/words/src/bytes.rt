ghost use Rattle.std.specs.Prelude.{◌≡◌, ◌%◌};
ghost use Rattle.words.specs.Bytes as spec;

use crate::printing::Kind;

// byte_of gives one byte of a word: the one whose number is the index modulo 4.
pub fn byte_of(word: i32, index: usize) -> u8
    ensures { result ≡ spec.byte_of (index % 4) word }
{
    word.to_le_bytes()[index % 4]
}

// with_byte gives the word with one byte replaced: the one whose number is the index modulo 4.
pub fn with_byte(word: i32, index: usize, byte: u8) -> i32
    ensures { result ≡ spec.with_byte (index % 4) byte word }
{
    let mut bytes = word.to_le_bytes();
    bytes[index % 4] = byte;
    i32::from_le_bytes(bytes)
}

// low_byte gives bits 0 to 7.
pub fn low_byte(word: i32) -> u8
    ensures { result ≡ spec.byte_of 0 word }
{
    byte_of(word, 0)
}

impl Kind {
    // keep gives what a variable or an element of the kind keeps of a word.
    pub fn keep(self, word: i32) -> i32
        ensures { result ≡ spec.kept self word }
    {
        match self {
            Kind::Int => word,
            Kind::Char => low_byte(word) as i32,
        }
    }
}
