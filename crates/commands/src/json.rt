ghost use Rattle.commands.specs.Json.{json_of, report_json, stop_name, verdict_key};
ghost use Rattle.commands.specs.Words.{hex_of};
ghost use Rattle.std.specs.Prelude.{◌≡◌, IfOk, Some, string_bytes};

use crate::answer::{Answer, Report, Stop, Summary};
use crate::word_lists::Listed;
use object::checked::ObjectFault;
use outcomes::{Numbered, Pause};
use std::alloc::{AllocError, Global};
use std::fmt;

// stop_name is the value of the key `stop`: letters of its own, while Display has the names for a reader.
fn stop_name(stop: Stop) -> &'static str
    ensures { result.now ≡ stop_name stop }
{
    match stop {
        Stop::Ended(_) => "verdict",
        Stop::Paused(Pause::Budget) => "A",
        Stop::Paused(Pause::Input) => "B",
        Stop::Paused(Pause::Output) => "C",
    }
}

// VerdictKey shows the key `verdict` with its value, if there is a verdict.
#[derive(Clone, Copy)]
struct VerdictKey(Stop);

impl fmt::Display for VerdictKey {
    ghost output = { λ k. Some (verdict_key k.0) };

    fn fmt<W: fmt::Write>(&self, f: &mut fmt::Formatter<W>) -> fmt::Result {
        match self.0 {
            Stop::Ended(verdict) => write!(f, ",\"verdict\":{}", verdict.number()),
            Stop::Paused(_) => Ok(()),
        }
    }
}

// hex_text is two digits for each byte.
fn hex_text(heap: Global, bytes: &[u8]) -> Result<String, AllocError>
    ensures { IfOk result (λ text. string_bytes text ≡ hex_of bytes.now) }
{
    hex::encode(heap, bytes)
}

// report_json is what a run did, as a JSON object.
fn report_json(heap: Global, report: &Report) -> Result<String, AllocError>
    ensures { IfOk result (λ text. string_bytes text ≡ report_json report.now) }
{
    let bytes = hex_text(heap, &report.bytes)?;
    let globals = Listed(&report.globals);
    let steps = report.steps;
    let stop = stop_name(report.stop);
    let taken = report.taken;
    let verdict = VerdictKey(report.stop);
    format!(in heap;
        "{{\"bytes\":\"{bytes}\",\"globals\":[{globals}],\"ok\":true,\"steps\":{steps},\"stop\":\"{stop}\",\"taken\":{taken}{verdict}}}\n"
    )
}

// json_of is an answer as one JSON object on a line.
pub(crate) fn json_of(heap: Global, answer: &Answer) -> Result<String, AllocError>
    ensures { IfOk result (λ text. string_bytes text ≡ json_of answer.now) }
{
    match answer {
        Answer::Accepted(summary) => {
            let Summary {
                code_size,
                globals,
                main,
            } = *summary;
            format!(in heap;
                "{{\"codesize\":{code_size},\"globals\":{globals},\"mainpc\":{main},\"ok\":true}}\n"
            )
        }
        Answer::FileRefused(ObjectFault { refusal, offset }) => format!(in heap;
            "{{\"at\":{offset},\"number\":{},\"ok\":false}}\n",
            refusal.number()
        ),
        Answer::StartRefused(refusal) => format!(in heap;
            "{{\"number\":{},\"ok\":false}}\n",
            refusal.number()
        ),
        Answer::Ran(report) => report_json(heap, report),
    }
}
