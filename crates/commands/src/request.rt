// Request is what a command line asks for.
// json is whether `--json` is given: an enum of two names would say no more than the option does.
#[derive(Drop)]
pub enum Request {
    Sample,
    Check {
        path: String,
        json: bool,
    },
    List {
        path: String,
    },
    Run {
        path: String,
        words: Vec<i32>,
        options: Options,
        json: bool,
    },
}

// Options is the numbers that a run can be given.
#[derive(Clone, Copy)]
pub struct Options {
    pub budget: u32,
    pub heap: u32,
    pub call: u32,
    pub operand: u32,
    pub room: u32,
}

impl Options {
    // DEFAULTS is what holds where no option is given.
    pub const DEFAULTS: Options = Options {
        budget: 1_000_000,
        heap: 4_096,
        call: 4_096,
        operand: 1_024,
        room: 1_000_000,
    };
}
