use crate::begin::begin;
use crate::execute::{Report, Stop, execute};
use console::SliceConsole;
use machine::Stores;
use machine::advance::advance;
use machine::machine::Progress;
use machine::start::start;
use object::inspect::inspect;
use outcomes::{Refusal, Verdict};
use std::test::Fail;

// COUNTDOWN is the example of docs/object-file.md: it writes 321 and a line feed, in 35 steps.
const COUNTDOWN: [u8; 42] = [
    77, 74, 0, 0, 0, 28, 0, 0, 0, 0, 0, 0, 0, 0, 51, 0, 1, 18, 7, 2, 15, 46, 0, 12, 2, 15, 54, 31,
    0, 255, 42, 255, 245, 22, 0, 0, 0, 10, 15, 56, 52, 50,
];

// TWO_WORDS makes an array of two words and traps: const_2, newarray 1, trap 1.
const TWO_WORDS: [u8; 19] = [77, 74, 0, 0, 0, 5, 0, 0, 0, 0, 0, 0, 0, 0, 17, 33, 1, 57, 1];

#[test]
fn counts_down_in_one_run(rt: HostRuntime) -> Result<(), Fail> {
    let mut heap = [5];
    let mut call = [6; 3];
    let mut operand = [7; 32];
    let mut text = [0; 9];
    let mut console = SliceConsole::new(&[], &mut text);
    let mut stores = Stores {
        data: &mut [],
        heap: &mut heap,
        call: &mut call,
        operand: &mut operand,
    };
    let Ok(machine) = begin(&COUNTDOWN, &mut stores) else {
        return Err(Fail::new("the object or a store is refused"));
    };
    match advance(machine, 35, &mut stores, &mut console) {
        Progress::Ended {
            verdict: Verdict::Finished,
            steps: 35,
        } => {
            assert_eq!(rt; console.written_bytes(), b"321\n".as_slice());
            Ok(())
        }
        _ => Err(Fail::new("the program does not finish in 35 steps")),
    }
}

#[test]
fn counts_down_in_runs_of_ten(rt: HostRuntime) -> Result<(), Fail> {
    let mut text = [0; 9];
    let mut console = SliceConsole::new(&[], &mut text);
    let mut stores = Stores {
        data: &mut [],
        heap: &mut [5],
        call: &mut [6; 3],
        operand: &mut [7; 32],
    };
    let Ok(report) = execute(&COUNTDOWN, 99, &mut stores, &mut console) else {
        return Err(Fail::new("the object or a store is refused"));
    };
    assert_eq!(rt;
        report,
        Report {
            stop: Stop::Ended(Verdict::Finished),
            steps: 35,
        }
    );
    assert_eq!(rt; console.written_bytes(), b"321\n".as_slice());
    Ok(())
}

#[test]
fn refused_start_changes_no_store(rt: HostRuntime) -> Result<(), Fail> {
    let mut heap = [5];
    let mut call = [6; 3];
    let mut operand = [7; 31];
    let mut stores = Stores {
        data: &mut [],
        heap: &mut heap,
        call: &mut call,
        operand: &mut operand,
    };
    let Ok(checked) = inspect(&COUNTDOWN) else {
        return Err(Fail::new("the object is refused"));
    };
    let Err(refusal) = start(checked, &mut stores) else {
        return Err(Fail::new("no store is refused"));
    };
    assert_eq!(rt; refusal, Refusal::UnfitStore);
    assert_eq!(rt; heap, [5]);
    assert_eq!(rt; call, [6; 3]);
    assert_eq!(rt; operand, [7; 31]);
    Ok(())
}

#[test]
fn refused_run_changes_nothing(rt: HostRuntime) -> Result<(), Fail> {
    let mut heap = [5];
    let mut call = [6; 3];
    let mut operand = [7; 32];
    let mut text = [0; 9];
    let mut console = SliceConsole::new(&[], &mut text);
    let mut stores = Stores {
        data: &mut [],
        heap: &mut heap,
        call: &mut call,
        operand: &mut operand,
    };
    let Ok(machine) = begin(&COUNTDOWN, &mut stores) else {
        return Err(Fail::new("the object or a store is refused"));
    };
    let mut longer = [8; 33];
    let mut stores = Stores {
        data: &mut [],
        heap: &mut heap,
        call: &mut call,
        operand: &mut longer,
    };
    let Progress::Refused { refusal, machine } = advance(machine, 35, &mut stores, &mut console)
    else {
        return Err(Fail::new("the longer store is not refused"));
    };
    assert_eq!(rt; refusal, Refusal::StoreLengthChanged);
    assert_eq!(rt; call, [-1, 0, 0]);
    assert_eq!(rt; longer, [8; 33]);
    assert_eq!(rt; console.written_bytes(), b"".as_slice());
    let mut stores = Stores {
        data: &mut [],
        heap: &mut heap,
        call: &mut call,
        operand: &mut operand,
    };
    match advance(machine, 35, &mut stores, &mut console) {
        Progress::Ended {
            verdict: Verdict::Finished,
            steps: 35,
        } => {
            assert_eq!(rt; console.written_bytes(), b"321\n".as_slice());
            Ok(())
        }
        _ => Err(Fail::new("the program does not finish in 35 steps")),
    }
}

#[test]
fn new_array_is_cleared(rt: HostRuntime) -> Result<(), Fail> {
    let mut heap = [5; 5];
    let mut call = [6];
    let mut operand = [7; 32];
    let mut console = SliceConsole::new(&[], &mut []);
    let mut stores = Stores {
        data: &mut [],
        heap: &mut heap,
        call: &mut call,
        operand: &mut operand,
    };
    let Ok(machine) = begin(&TWO_WORDS, &mut stores) else {
        return Err(Fail::new("the object or a store is refused"));
    };
    assert_eq!(rt; heap, [0; 5]);
    // only what a host writes into the heap before a run can make it differ from 0 where it is free
    heap = [9; 5];
    let mut stores = Stores {
        data: &mut [],
        heap: &mut heap,
        call: &mut call,
        operand: &mut operand,
    };
    match advance(machine, 9, &mut stores, &mut console) {
        Progress::Ended {
            verdict: Verdict::MissingReturn,
            steps: 3,
        } => {
            assert_eq!(rt; heap, [9, 2, 0, 0, 9]);
            Ok(())
        }
        _ => Err(Fail::new("the program does not trap in 3 steps")),
    }
}

#[test]
fn second_refused_run_changes_nothing(rt: HostRuntime) -> Result<(), Fail> {
    let mut heap = [5];
    let mut call = [6; 3];
    let mut operand = [7; 32];
    let mut text = [0; 9];
    let mut console = SliceConsole::new(&[], &mut text);
    let mut stores = Stores {
        data: &mut [],
        heap: &mut heap,
        call: &mut call,
        operand: &mut operand,
    };
    let Ok(machine) = begin(&COUNTDOWN, &mut stores) else {
        return Err(Fail::new("the object or a store is refused"));
    };
    let mut longer = [8; 33];
    let mut stores = Stores {
        data: &mut [],
        heap: &mut heap,
        call: &mut call,
        operand: &mut longer,
    };
    let Progress::Refused { refusal, machine } = advance(machine, 35, &mut stores, &mut console)
    else {
        return Err(Fail::new("the longer store is not refused"));
    };
    assert_eq!(rt; refusal, Refusal::StoreLengthChanged);
    assert_eq!(rt; call, [-1, 0, 0]);
    assert_eq!(rt; longer, [8; 33]);
    assert_eq!(rt; console.written_bytes(), b"".as_slice());
    let mut stores = Stores {
        data: &mut [8],
        heap: &mut heap,
        call: &mut call,
        operand: &mut operand,
    };
    let Progress::Refused { refusal, machine } = advance(machine, 35, &mut stores, &mut console)
    else {
        return Err(Fail::new("the longer data store is not refused"));
    };
    assert_eq!(rt; refusal, Refusal::StoreLengthChanged);
    let mut stores = Stores {
        data: &mut [],
        heap: &mut heap,
        call: &mut call,
        operand: &mut operand,
    };
    match advance(machine, 35, &mut stores, &mut console) {
        Progress::Ended {
            verdict: Verdict::Finished,
            steps: 35,
        } => {
            assert_eq!(rt; console.written_bytes(), b"321\n".as_slice());
            Ok(())
        }
        _ => Err(Fail::new("the program does not finish in 35 steps")),
    }
}
