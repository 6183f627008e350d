// Owns the place where a program's words come from and where its bytes go.
// Promises what each call of a console takes, writes, refuses and leaves untouched.
// Does not say what the words and bytes mean, and allocates nothing.
//
// src/slice_console.rt: a console over lent memory.
// src/ring.rt: a ring, which holds items in the order in which they came.
// src/ring_console.rt: a console that owns two rings, which its host feeds and drains.
// src/tests.rt: a worked example of each.
// specs/Calls.antt: what take and put do, on any console.
// specs/Slices.antt: what a console over lent memory holds.
// specs/Rounds.antt: the places of a ring, read round, and what pop does.
// specs/Rings.antt: what a console over two rings holds, and what feed does.
// proofs/: the laws of a ring, and of loops that append or move items.
#![tactic(auto)]

mod ring;
mod ring_console;
mod slice_console;

ghost use Rattle.std.specs.Prelude.{◌≡◌, ℕ, List, length, ℤ};
ghost use Rattle.console.specs.Calls.{Fits, Puts, Takes};

use outcomes::Refusal;
pub use ring_console::RingConsole;
pub use slice_console::SliceConsole;

// Console is where a program takes its words from and puts its bytes.
pub trait Console {
    // waiting is the words that wait, the next one first.
    ghost waiting: { Self → List ℤ };

    // written is the bytes written and not drained, the oldest first.
    ghost written: { Self → List ℕ };

    // room is how many bytes more fit.
    ghost room: { Self → ℕ };

    // words_waiting is the number of words that wait.
    fn words_waiting(&self) -> usize
        ensures { result ≡ length (waiting self.now) };

    // bytes_free is the number of bytes that still fit.
    fn bytes_free(&self) -> usize
        ensures { result ≡ room self.now };

    // take gives the next word, which then waits no more.
    fn take(&mut self) -> Result<i32, Refusal>
        ensures takes { Takes result (waiting self.old) (waiting self.new) }
        ensures written { written self.new ≡ written self.old }
        ensures room { room self.new ≡ room self.old };

    // put writes all of the bytes, or none of them.
    fn put(&mut self, bytes: &[u8]) -> Result<(), Refusal>
        ensures puts { Puts result bytes.now (written self.old) (written self.new) }
        ensures room { Fits result bytes.now (room self.old) (room self.new) }
        ensures waiting { waiting self.new ≡ waiting self.old };
}

#[cfg(test)]
mod tests;
