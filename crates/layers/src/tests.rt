// Two-book layers with more gates than a book may have, and notices at the edges of their table.
use crate::notices::refusals::Refusal;
use crate::notices::{Notice, Noticed};
use crate::two_books::TwoBooks;
use books::book::Book;
use books::windows::{Window, WindowBook};
use std::alloc::{AllocError, Global};
use std::test::Fail;

const ALWAYS: Window = Window {
    gate: 255,
    begin: 0,
    end: 20160,
};

fn notice(gate: u16, begin: u16, end: u16) -> Notice {
    Notice { gate, begin, end }
}

// One gate that is open all the time, under no notice.
fn open_gate<'a>(
    heap: Global,
    passages: &'a [u16],
    windows: &'a [Window],
) -> Result<Noticed<WindowBook<'a>>, AllocError> {
    Noticed::new(heap, WindowBook::new(passages, windows))
}

#[test]
fn gates_past_1023(rt: HostRuntime) {
    let passages = [20; 256];
    let windows = [ALWAYS];
    let one = WindowBook::new(&passages, &windows);
    let half = TwoBooks::new(one, one);
    let most = TwoBooks::new(half, TwoBooks::new(one, one));
    let all = TwoBooks::new(most, one);
    assert_eq!(rt; all.count(), 1024);
    assert_eq!(rt; all.first(254, 5), None);
    assert_eq!(rt; all.first(255, 5), Some((5, 25)));
    assert_eq!(rt; all.first(1023, 5), Some((5, 25)));
    assert_eq!(rt; all.last(1023, 65535), Some((20140, 20160)));
    assert_eq!(rt; all.first(1279, 5), None);
}

#[test]
fn a_full_table(rt: HostRuntime) -> Result<(), Fail> {
    let passages = [20];
    let windows = [Window { gate: 0, ..ALWAYS }];
    let mut gate = open_gate(rt.alloc(), &passages, &windows)?;
    for i in 0..32 {
        assert_eq!(rt; gate.post(notice(0, 100 * i, 100 * i + 90)), Ok(()));
    }
    assert_eq!(rt; gate.post(notice(0, 5000, 5001)), Err(Refusal::NoticesFull));
    assert_eq!(rt; gate.post(notice(0, 100, 190)), Err(Refusal::SameNotice));
    assert_eq!(rt; gate.first(0, 0), Some((3190, 3210)));
    assert_eq!(rt; gate.lift(notice(0, 100, 190)), Ok(()));
    assert_eq!(rt; gate.lift(notice(0, 100, 190)), Err(Refusal::NoNotice));
    assert_eq!(rt; gate.first(0, 0), Some((90, 110)));
    assert_eq!(rt; gate.post(notice(0, 5000, 5001)), Ok(()));
    assert_eq!(rt; gate.last(0, 5010), Some((4980, 5000)));
    Ok(())
}

#[test]
fn malformed_notices(rt: HostRuntime) -> Result<(), Fail> {
    let passages = [20];
    let windows = [Window { gate: 0, ..ALWAYS }];
    let mut gate = open_gate(rt.alloc(), &passages, &windows)?;
    assert_eq!(rt; gate.post(notice(1, 5, 5)), Err(Refusal::NoGate));
    assert_eq!(rt; gate.post(notice(65535, 5, 10)), Err(Refusal::NoGate));
    assert_eq!(rt; gate.post(notice(0, 5, 5)), Err(Refusal::BadNotice));
    assert_eq!(rt; gate.post(notice(0, 65535, 0)), Err(Refusal::BadNotice));
    assert_eq!(rt; gate.post(notice(0, 0, 20161)), Err(Refusal::BadNotice));
    assert_eq!(rt; gate.lift(notice(0, 5, 5)), Err(Refusal::NoNotice));
    assert_eq!(rt; gate.post(notice(0, 0, 20160)), Ok(()));
    assert_eq!(rt; gate.first(0, 0), None);
    assert_eq!(rt; gate.last(0, 20160), None);
    Ok(())
}
