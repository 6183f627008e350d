ghost use Rattle.std.specs.Prelude.{◌<◌, ◌≤◌, length};
ghost use Rattle.machine.specs.Runs.{view};
ghost use Rattle.machine.specs.Turns.{ExchangedAs, Printed, Read, TurnedAs, Wanted};

use console::Console;
use outcomes::{Pause, Stop};
use step::interpreter::Interpreter;
use step::registers::Effect;
use words::printing::Kind;
use words::text::printed;

// The console stands beside the machine, and not in a struct with it: a question to it would go through a `&mut` field,
// of which the kit then knows nothing. What it shows is written out in clauses by the three members of its trait: of one
// more member that bundles them a generic clause would not know that it does.

// read takes a word for a read, where one waits.
fn read<C: Console>(
    machine: &mut Interpreter<'_>,
    kind: Kind,
    next: u16,
    console: &mut C,
) -> Result<(), Stop>
    requires { machine.old.height < length machine.old.operand.now }
    ensures { Read result kind next
        machine.old (view (C.waiting console.old) (C.written console.old) (C.room console.old))
        machine.new (view (C.waiting console.new) (C.written console.new) (C.room console.new)) }
{
    if console.words_waiting() == 0 {
        return Err(Stop::Paused(Pause::Input));
    }
    let word = console.take().unwrap();
    machine.receive(kind, word, next);
    Ok(())
}

// print writes the bytes of a print, where there is room.
fn print<C: Console>(
    machine: &mut Interpreter<'_>,
    kind: Kind,
    value: i32,
    width: i32,
    next: u16,
    console: &mut C,
) -> Result<(), Stop>
    requires { 2 ≤ machine.old.height }
    ensures { Printed result kind value width next
        machine.old (view (C.waiting console.old) (C.written console.old) (C.room console.old))
        machine.new (view (C.waiting console.new) (C.written console.new) (C.room console.new)) }
{
    let text = printed(kind, value, width);
    let bytes = text.as_bytes();
    if console.bytes_free() < bytes.len() {
        return Err(Stop::Paused(Pause::Output));
    }
    console.put(bytes).unwrap();
    machine.drop_printed(next);
    Ok(())
}

// exchange does what a step's effect wants of the console.
fn exchange<C: Console>(
    effect: Effect,
    machine: &mut Interpreter<'_>,
    console: &mut C,
) -> Result<(), Stop>
    requires { Wanted effect machine.old }
    ensures { ExchangedAs result effect
        machine.old (view (C.waiting console.old) (C.written console.old) (C.room console.old))
        machine.new (view (C.waiting console.new) (C.written console.new) (C.room console.new)) }
{
    match effect {
        Effect::Moved => Ok(()),
        Effect::Takes { kind, next } => read(machine, kind, next, console),
        Effect::Writes {
            kind,
            value,
            width,
            next,
        } => print(machine, kind, value, width, next, console),
    }
}

// turn makes one step beside a console, or tells why none is made.
pub(crate) fn turn<C: Console>(machine: &mut Interpreter<'_>, console: &mut C) -> Result<(), Stop>
    ensures { TurnedAs result
        machine.old (view (C.waiting console.old) (C.written console.old) (C.room console.old))
        machine.new (view (C.waiting console.new) (C.written console.new) (C.room console.new)) }
{
    let effect = machine.step()?;
    exchange(effect, machine, console)
}
