use console::RingConsole;
use std::alloc::AllocError;

// FED is how many words are fed at a time.
const FED: usize = 10;

// DRAINED is how many bytes are drained at a time.
const DRAINED: usize = 100;

// Host holds the words that a console is still to be fed, and the bytes that were drained from it.
#[derive(Drop)]
pub(crate) struct Host<'a> {
    pub(crate) words: &'a [i32],
    pub(crate) bytes: Vec<u8>,
}

impl Host<'_> {
    // attend feeds some words and drains some bytes, and tells whether there were any.
    pub(crate) fn attend(&mut self, console: &mut RingConsole) -> Result<bool, AllocError> {
        let fed = self.feed(console);
        let drained = self.drain(console, &mut [0; DRAINED])?;
        Ok(fed || drained)
    }

    // feed feeds the first words, and tells whether there were any that a console took.
    fn feed(&mut self, console: &mut RingConsole) -> bool {
        let fed = self
            .words
            .iter()
            .take(FED)
            .take_while(|word| console.feed(**word).is_ok())
            .count();
        self.words = &self.words[fed..];
        fed > 0
    }

    // drain drains the oldest bytes of a console, as many as the part holds, and tells whether there were any.
    pub(crate) fn drain(
        &mut self,
        console: &mut RingConsole,
        part: &mut [u8],
    ) -> Result<bool, AllocError> {
        let count = console.drain(part);
        self.bytes.extend_from_slice(&part[..count])?;
        Ok(count > 0)
    }
}
