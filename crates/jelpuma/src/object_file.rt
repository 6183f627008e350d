use commands::answer::{Answer, Report, Stop, Summary};
use commands::failure::Failure;
use commands::listing::listing;
use commands::reply::{Reply, reply_to};
use commands::request::Options;
use console::SliceConsole;
use machine::Stores;
use machine::advance::advance;
use machine::machine::{Machine, Progress};
use machine::start::start;
use object::checked::Checked;
use object::inspect::inspect;
use outcomes::Refusal;
use std::alloc::Global;

// MOST_WORDS is one word more than a store may have: a longer store is refused too, so no more is lent.
const MOST_WORDS: u32 = 1_048_577;

// ObjectFile is the path of a file and the bytes in it, which may or may not make an object.
#[derive(Drop)]
pub(crate) struct ObjectFile {
    pub(crate) path: String,
    pub(crate) bytes: Vec<u8>,
}

impl ObjectFile {
    // check tells whether the bytes are an object.
    pub(crate) fn check(&self, heap: Global, json: bool) -> Result<Reply, Failure> {
        let answer = match inspect(&self.bytes) {
            Ok(checked) => Answer::Accepted(Summary::from(&checked)),
            Err(fault) => Answer::FileRefused(fault),
        };
        Ok(reply_to(heap, self.path.as_str(), json, &answer)?)
    }

    // list lists the code of the object.
    pub(crate) fn list(&self, heap: Global) -> Result<Reply, Failure> {
        match inspect(&self.bytes) {
            Ok(checked) => {
                let text = listing(heap, Summary::from(&checked), checked.code())?;
                Ok(Reply::Answered(text.into_bytes()))
            }
            Err(fault) => {
                let answer = Answer::FileRefused(fault);
                Ok(reply_to(heap, self.path.as_str(), false, &answer)?)
            }
        }
    }

    // run makes one run of the object.
    pub(crate) fn run(
        &self,
        heap: Global,
        words: &[i32],
        options: Options,
        json: bool,
    ) -> Result<Reply, Failure> {
        let answer = match inspect(&self.bytes) {
            Ok(checked) => run_checked(heap, checked, words, options)?,
            Err(fault) => Answer::FileRefused(fault),
        };
        Ok(reply_to(heap, self.path.as_str(), json, &answer)?)
    }
}

// Ran is what a run did, without what it left in the stores and the buffer.
#[derive(Clone, Copy)]
struct Ran {
    stop: Stop,
    steps: u64,
    taken: usize,
    written: usize,
}

// run makes one run of a machine.
fn run(
    machine: Machine<'_>,
    words: &[i32],
    budget: u32,
    stores: &mut Stores<'_>,
    buffer: &mut [u8],
) -> Result<Ran, Refusal> {
    let mut console = SliceConsole::new(words, buffer);
    let (stop, steps) = match advance(machine, budget as u64, stores, &mut console) {
        Progress::Ended { verdict, steps } => (Stop::Ended(verdict), steps),
        Progress::Paused { pause, steps, .. } => (Stop::Paused(pause), steps),
        Progress::Refused { refusal, .. } => return Err(refusal),
    };
    Ok(Ran {
        stop,
        steps,
        taken: console.taken(),
        written: console.written_bytes().len(),
    })
}

// store makes a store of the length that is asked for, or of the least length that is refused.
fn store(heap: Global, length: u32) -> Result<Vec<i32>, Failure> {
    Ok(vec![in heap; 0; length.min(MOST_WORDS) as usize]?)
}

// run_checked makes one run of an accepted object. The stores are tested before memory is asked for the bytes to be written.
fn run_checked(
    heap: Global,
    checked: Checked<'_>,
    words: &[i32],
    options: Options,
) -> Result<Answer, Failure> {
    let mut data = vec![in heap; 0; checked.globals()]?;
    let mut arrays = store(heap, options.heap)?;
    let mut calls = store(heap, options.call)?;
    let mut operands = store(heap, options.operand)?;
    let mut stores = Stores {
        data: &mut data,
        heap: &mut arrays,
        call: &mut calls,
        operand: &mut operands,
    };
    let machine = match start(checked, &mut stores) {
        Ok(machine) => machine,
        Err(refusal) => return Ok(Answer::StartRefused(refusal)),
    };
    let mut buffer = vec![in heap; 0u8; options.room as usize]?;
    match run(machine, words, options.budget, &mut stores, &mut buffer) {
        Ok(ran) => {
            buffer.truncate(ran.written);
            Ok(Answer::Ran(Report {
                stop: ran.stop,
                steps: ran.steps,
                taken: ran.taken,
                bytes: buffer,
                globals: data,
            }))
        }
        Err(refusal) => Ok(Answer::StartRefused(refusal)),
    }
}
