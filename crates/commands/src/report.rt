ghost use Rattle.commands.specs.Report.{fault_line, globals_text, line_end, output, refusal_line, report_lines, stop_line, summary_line};
ghost use Rattle.std.specs.Prelude.{◌≡◌, IfOk, Some, string_bytes};

use crate::answer::{Report, Stop, Summary};
use crate::word_lists::EachBehind;
use object::checked::ObjectFault;
use outcomes::{Numbered, Refusal};
use std::alloc::{AllocError, Global};
use std::fmt;

// StopLine shows how a run came to its end.
#[derive(Clone, Copy)]
struct StopLine(Stop);

impl fmt::Display for StopLine {
    ghost output = { λ l. Some (stop_line l.0) };

    fn fmt<W: fmt::Write>(&self, f: &mut fmt::Formatter<W>) -> fmt::Result {
        match self.0 {
            Stop::Ended(verdict) => writeln!(f, "verdict {}: {verdict}", verdict.number()),
            Stop::Paused(pause) => writeln!(f, "pause {}: {pause}", pause.number()),
        }
    }
}

// GlobalsText shows the values of the globals, a blank in front of each.
#[derive(Clone, Copy)]
struct GlobalsText<'a>(&'a [i32]);

impl fmt::Display for GlobalsText<'_> {
    ghost output = { λ g. Some (globals_text g.0.now) };

    fn fmt<W: fmt::Write>(&self, f: &mut fmt::Formatter<W>) -> fmt::Result {
        match self.0 {
            [] => f.write_str(" none"),
            words => EachBehind { mark: " ", words }.fmt(f),
        }
    }
}

// report_lines is what a run did, in five lines.
fn report_lines(heap: Global, report: &Report) -> Result<String, AllocError>
    ensures { IfOk result (λ text. string_bytes text ≡ report_lines report.now) }
{
    let stop = StopLine(report.stop);
    let steps = report.steps;
    let taken = report.taken;
    let written = report.bytes.len();
    let globals = GlobalsText(&report.globals);
    format!(in heap;
        "{stop}steps: {steps}\nwords taken: {taken}\nbytes written: {written}\nglobals:{globals}\n"
    )
}

// line_end is a line feed where the bytes do not end a line.
fn line_end(bytes: &[u8]) -> &'static [u8]
    ensures { result.now ≡ line_end bytes.now }
{
    match bytes {
        [] | [.., b'\n'] => b"",
        _ => b"\n",
    }
}

// report_output is what the program wrote, and then what its run did.
pub(crate) fn report_output(heap: Global, report: &Report) -> Result<Vec<u8>, AllocError>
    ensures { IfOk result (λ bytes. bytes.items ≡ output report.now) }
{
    let lines = report_lines(heap, report)?;
    let mut bytes = report.bytes.as_slice().to_vec(heap)?;
    bytes.extend_from_slice(line_end(&report.bytes))?;
    bytes.extend_from_slice(lines.as_bytes())?;
    Ok(bytes)
}

impl fmt::Display for Summary {
    ghost output = { λ s. Some (summary_line s) };

    fn fmt<W: fmt::Write>(&self, f: &mut fmt::Formatter<W>) -> fmt::Result {
        let Summary {
            code_size,
            globals,
            main,
        } = self;
        writeln!(
            f,
            "code size {code_size}, globals {globals}, main address {main}"
        )
    }
}

// fault_line tells why a file is refused, and where.
pub(crate) fn fault_line(heap: Global, path: &str, fault: ObjectFault) -> Result<String, AllocError>
    ensures { IfOk result (λ text. string_bytes text ≡ fault_line path.now fault) }
{
    let ObjectFault { refusal, offset } = fault;
    format!(in heap;
        "{path}:{offset}: refusal {}: {refusal}\n",
        refusal.number()
    )
}

// refusal_line tells why something other than the file is refused.
pub(crate) fn refusal_line(heap: Global, path: &str, refusal: Refusal) -> Result<String, AllocError>
    ensures { IfOk result (λ text. string_bytes text ≡ refusal_line path.now refusal) }
{
    format!(in heap; "{path}: refusal {}: {refusal}\n", refusal.number())
}
