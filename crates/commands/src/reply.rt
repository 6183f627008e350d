ghost use Rattle.commands.specs.Replies.{printed_by, reply_to};
ghost use Rattle.std.specs.Prelude.{◌≡◌, IfOk};

use crate::answer::Answer;
use crate::json::json_of;
use crate::report::{fault_line, refusal_line, report_output};
use std::alloc::{AllocError, Global};

// Reply is what a command prints. An answer goes to the standard output and ends with status 0,
// a refusal goes to the standard error output and ends with status 1.
// It is no Result: a refusal is an answer that was given, and the Result of reply_to is about memory.
#[derive(Drop)]
pub enum Reply {
    Answered(Vec<u8>),
    Refused(Vec<u8>),
}

// reply_to gives what is printed for an answer about the file at a path.
pub fn reply_to(heap: Global, path: &str, json: bool, answer: &Answer) -> Result<Reply, AllocError>
    ensures { IfOk result (λ reply. printed_by reply ≡ reply_to path.now json answer.now) }
{
    if json {
        return Ok(Reply::Answered(json_of(heap, answer)?.into_bytes()));
    }
    match answer {
        Answer::Accepted(summary) => Ok(Reply::Answered(summary.to_string(heap)?.into_bytes())),
        Answer::FileRefused(fault) => Ok(Reply::Refused(fault_line(
            heap, path, *fault,
        )?.into_bytes())),
        Answer::StartRefused(refusal) => Ok(Reply::Refused(refusal_line(
            heap, path, *refusal,
        )?.into_bytes())),
        Answer::Ran(report) => Ok(Reply::Answered(report_output(heap, report)?)),
    }
}
