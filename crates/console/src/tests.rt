use crate::{Console, RingConsole, SliceConsole};
use outcomes::Refusal;

#[test]
fn lent_memory(rt: HostRuntime) {
    let mut buffer = *b"....!";
    let mut console = SliceConsole::new(&[7], &mut buffer);
    assert_eq!(rt; console.take(), Ok(7));
    assert_eq!(rt; console.take(), Err(Refusal::NoWordWaiting));
    assert_eq!(rt; console.put(b"abcd"), Ok(()));
    assert_eq!(rt; console.put(b"ef"), Err(Refusal::NoRoom));
    assert_eq!(rt; buffer, *b"abcd!");
}

#[test]
fn words_go_round(rt: HostRuntime) {
    let mut console = RingConsole::new();
    for word in 0..300 {
        assert_eq!(rt; console.feed(word), Ok(()));
        assert_eq!(rt; console.take(), Ok(word));
    }
    assert_eq!(rt; console.take(), Err(Refusal::NoWordWaiting));
    for word in 0..256 {
        assert_eq!(rt; console.feed(word), Ok(()));
    }
    assert_eq!(rt; console.feed(0), Err(Refusal::InputFull));
}

#[test]
fn bytes_go_round(rt: HostRuntime) {
    let mut console = RingConsole::new();
    assert_eq!(rt; console.put(&[1; 500]), Ok(()));
    assert_eq!(rt; console.put(b"thirteen more"), Err(Refusal::NoRoom));
    assert_eq!(rt; console.drain(&mut [0; 500]), 500);
    assert_eq!(rt; console.put(b"past the end and round"), Ok(()));
    let mut text = *b"........................";
    assert_eq!(rt; console.drain(&mut text), 22);
    assert_eq!(rt; text, *b"past the end and round..");
}

#[test]
fn bytes_go_round_within_a_text(rt: HostRuntime) {
    let mut console = RingConsole::new();
    assert_eq!(rt; console.put(&[1; 500]), Ok(()));
    assert_eq!(rt; console.put(b"thirteen more"), Err(Refusal::NoRoom));
    assert_eq!(rt; console.put(b"twelve bytes"), Ok(()));
    assert_eq!(rt; console.drain(&mut [0; 505]), 505);
    assert_eq!(rt; console.put(b" past the end"), Ok(()));
    let mut text = *b"........................";
    assert_eq!(rt; console.drain(&mut text), 20);
    assert_eq!(rt; text, *b"e bytes past the end....");
}
