ghost use Rattle.std.specs.Prelude.{◌≡◌, ◌+◌, ◌≤◌, [], length};

use crate::Console;
use outcomes::Refusal;

// SliceConsole takes its words from a lent list and writes into a lent buffer.
// It counts what was taken and written, since the host asks for the count of the words and for the bytes afterwards.
#[derive(Drop)]
pub struct SliceConsole<'w, 'b> {
    words: &'w [i32],
    taken: usize,
    buffer: &'b mut [u8],
    filled: usize,
    ghost taken_within: { taken ≤ length words.now },
    ghost filled_within: { filled ≤ length buffer.now },
}

impl<'w, 'b> SliceConsole<'w, 'b> {
    ghost use Rattle.console.specs.Slices.{lent_bytes, lent_words, room, waiting, written};

    // new makes a console where all of the words wait and nothing is written.
    pub fn new(words: &'w [i32], buffer: &'b mut [u8]) -> SliceConsole<'w, 'b>
        ensures waiting { waiting result ≡ words.now }
        ensures written { written result ≡ [] }
        ensures room { room result ≡ length buffer.old }
        ensures words { lent_words result ≡ words.now }
        ensures bytes { lent_bytes result ≡ buffer.old }
    {
        SliceConsole {
            words,
            taken: 0,
            buffer,
            filled: 0,
        }
    }

    // taken is how many words of the lent list were taken.
    pub fn taken(&self) -> usize
        ensures { result + length (waiting self.now) ≡ length (lent_words self.now) }
    {
        self.taken
    }

    // written_bytes is the bytes that were put, the first of the lent buffer.
    pub fn written_bytes(&self) -> &[u8]
        ensures { result.now ≡ written self.now }
    {
        &self.buffer[..self.filled]
    }
}

impl Console for SliceConsole<'_, '_> {
    ghost use Rattle.console.specs.Calls.{Fits, Puts, Takes};
    ghost use Rattle.console.specs.Slices.{LeavesLent, room, waiting, written};

    ghost waiting = { waiting };

    ghost written = { written };

    ghost room = { room };

    fn words_waiting(&self) -> usize {
        self.words.len() - self.taken
    }

    fn bytes_free(&self) -> usize {
        self.buffer.len() - self.filled
    }

    fn take(&mut self) -> Result<i32, Refusal>
        ensures takes { Takes result (waiting self.old) (waiting self.new) }
        ensures written { written self.new ≡ written self.old }
        ensures room { room self.new ≡ room self.old }
        ensures lent { LeavesLent self.old self.new }
    {
        let word = *self.words.get(self.taken).ok_or(Refusal::NoWordWaiting)?;
        self.taken += 1;
        Ok(word)
    }

    fn put(&mut self, bytes: &[u8]) -> Result<(), Refusal>
        ensures puts { Puts result bytes.now (written self.old) (written self.new) }
        ensures room { Fits result bytes.now (room self.old) (room self.new) }
        ensures waiting { waiting self.new ≡ waiting self.old }
        ensures lent { LeavesLent self.old self.new }
    {
        if self.bytes_free() < bytes.len() {
            return Err(Refusal::NoRoom);
        }
        let end = self.filled + bytes.len();
        self.buffer[self.filled..end].copy_from_slice(bytes);
        self.filled = end;
        Ok(())
    }
}
