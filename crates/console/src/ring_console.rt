ghost use Rattle.std.specs.Prelude.{◌≡◌, ◌+◌, min, [], ◌++◌, length, take, drop};
ghost use Rattle.console.specs.Rings.{Feeds, byte_places, room, waiting, written};

use crate::Console;
use crate::ring::Ring;
use outcomes::Refusal;

// WORDS is how many words can wait.
const WORDS: usize = 256;

// BYTES is how many bytes can be written and not drained.
const BYTES: usize = 512;

// RingConsole owns its memory: the host feeds it words and drains its bytes.
#[derive(Drop)]
pub struct RingConsole {
    input: Ring<i32, WORDS>,
    output: Ring<u8, BYTES>,
}

impl RingConsole {
    // new makes a console where no word waits and nothing is written.
    pub fn new() -> RingConsole
        ensures waiting { waiting result ≡ [] }
        ensures written { written result ≡ [] }
        ensures room { room result ≡ byte_places }
    {
        RingConsole {
            input: Ring::new(0),
            output: Ring::new(0),
        }
    }

    // feed lets a word wait behind the others, if there is a place.
    pub fn feed(&mut self, word: i32) -> Result<(), Refusal>
        ensures feeds { Feeds result word (waiting self.old) (waiting self.new) }
        ensures written { written self.new ≡ written self.old }
        ensures room { room self.new ≡ room self.old }
    {
        if self.input.len() == WORDS {
            return Err(Refusal::InputFull);
        }
        self.input.push(word);
        Ok(())
    }

    // drain moves the oldest bytes into the front of `out`, as many as there are or as it holds.
    pub fn drain(&mut self, out: &mut [u8]) -> usize
        ensures count { result ≡ min (length (written self.old)) (length out.old) }
        ensures out { out.new ≡ take result (written self.old) ++ drop result out.old }
        ensures written { written self.new ≡ drop result (written self.old) }
        ensures room { room self.new ≡ room self.old + result }
        ensures waiting { waiting self.new ≡ waiting self.old }
    {
        for (i, place) in out.iter_mut().enumerate() {
            match self.output.pop() {
                Some(byte) => *place = byte,
                None => return i,
            }
        }
        out.len()
    }
}

impl Console for RingConsole {
    ghost waiting = { waiting };

    ghost written = { written };

    ghost room = { room };

    fn words_waiting(&self) -> usize {
        self.input.len()
    }

    fn bytes_free(&self) -> usize {
        BYTES - self.output.len()
    }

    fn take(&mut self) -> Result<i32, Refusal> {
        self.input.pop().ok_or(Refusal::NoWordWaiting)
    }

    fn put(&mut self, bytes: &[u8]) -> Result<(), Refusal> {
        if self.bytes_free() < bytes.len() {
            return Err(Refusal::NoRoom);
        }
        for byte in bytes {
            self.output.push(*byte);
        }
        Ok(())
    }
}
