use crate::stores::Stores;
use anyhow::Context;
use outcomes::{Numbered, Stop};
use std::alloc::Global;
use std::fmt;

// Ending is what stands at the end of the answer of an execution.
// It is no closure: that would go through four functions, each with a clause about it.
#[derive(Clone, Copy)]
pub enum Ending {
    Globals,
    // Digest is the digest of the stores, behind the globals.
    Digest,
}

// Driven is why an execution stopped, the steps it made, and its stores as they are then.
#[derive(Drop)]
pub(crate) struct Driven {
    pub(crate) stop: Stop,
    pub(crate) steps: u64,
    pub(crate) stores: Stores,
}

// Outcome is what an execution leaves behind: also the words that it took, and the bytes that it wrote.
#[derive(Drop)]
pub(crate) struct Outcome {
    pub(crate) driven: Driven,
    pub(crate) taken: usize,
    pub(crate) bytes: Vec<u8>,
}

impl Outcome {
    // told is the outcome of an object with so many globals, in the words of a file of executions.
    pub(crate) fn told(
        &self,
        heap: Global,
        globals: usize,
        ending: Ending,
    ) -> anyhow::Result<String> {
        let stores = &self.driven.stores;
        let values = stores.data.get(..globals).context("globals are missing")?;
        let globals = Listed(values);
        Ok(match ending {
            Ending::Globals => format!(in heap; "{self} {globals}")?,
            Ending::Digest => format!(in heap; "{self} {globals} {}", stores.digest())?,
        })
    }
}

impl fmt::Display for Outcome {
    fn fmt<W: fmt::Write>(&self, f: &mut fmt::Formatter<W>) -> fmt::Result {
        match self.driven.stop {
            Stop::Ended(verdict) => write!(f, "ended {}", verdict.number())?,
            Stop::Paused(pause) => write!(f, "paused {}", pause.number())?,
        }
        let steps = self.driven.steps;
        let taken = self.taken;
        let bytes = Hex(&self.bytes);
        write!(f, " {steps} {taken} {bytes}")
    }
}

// Hex shows bytes by two hex digits each, and no byte by -.
#[derive(Drop)]
struct Hex<'a>(&'a [u8]);

impl fmt::Display for Hex<'_> {
    fn fmt<W: fmt::Write>(&self, f: &mut fmt::Formatter<W>) -> fmt::Result {
        if self.0.is_empty() {
            return f.write_str("-");
        }
        for byte in self.0 {
            write!(f, "{byte:02x}")?;
        }
        Ok(())
    }
}

// Listed shows words with commas between them, and no word by -, where Listed of commands shows nothing: one for both would be told the word for none.
#[derive(Drop)]
struct Listed<'a>(&'a [i32]);

impl fmt::Display for Listed<'_> {
    fn fmt<W: fmt::Write>(&self, f: &mut fmt::Formatter<W>) -> fmt::Result {
        let [first, others @ ..] = self.0 else {
            return f.write_str("-");
        };
        write!(f, "{first}")?;
        for word in others {
            write!(f, ",{word}")?;
        }
        Ok(())
    }
}
