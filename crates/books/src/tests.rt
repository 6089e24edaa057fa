// Edges of the checks, the empty book, and lists far longer than a book has gates.
use crate::book::Book;
use crate::faults::{Fault, Finding, RecordList};
use crate::tides::{Tide, TideBook};
use crate::windows::{Window, WindowBook};

const TIDE: Tide = Tide {
    phase: 60,
    period: 745,
    length: 180,
    passage: 30,
};

fn found(list: RecordList, place: usize, fault: Fault) -> Option<Finding> {
    Some(Finding { list, place, fault })
}

fn timed<'a>(passages: &'a [u16], windows: &'a [Window]) -> Option<Finding> {
    let book = WindowBook::new(passages, windows);
    book.check()
}

// What a check tells of one passage time.
fn passage(p: u16) -> Option<Finding> {
    let none: [Window; 0] = [];
    let passages = [p];
    timed(&passages, &none)
}

// What a check tells of one window in a book of one gate.
fn window(gate: u16, begin: u16, end: u16) -> Option<Finding> {
    let passages = [20];
    let windows = [Window { gate, begin, end }];
    timed(&passages, &windows)
}

// What a check tells of one tide.
fn tide(tide: Tide) -> Option<Finding> {
    let tides = [tide];
    let book = TideBook::new(&tides);
    book.check()
}

#[test]
fn passage_times(rt: HostRuntime) {
    let bad = found(RecordList::Timed, 0, Fault::Passage);
    assert_eq!(rt; passage(0), bad);
    assert_eq!(rt; passage(1), None);
    assert_eq!(rt; passage(20160), None);
    assert_eq!(rt; passage(20161), bad);
    assert_eq!(rt; passage(65535), bad);
}

#[test]
fn window_records(rt: HostRuntime) {
    let astray = found(RecordList::Windows, 0, Fault::WindowGate);
    let bad = found(RecordList::Windows, 0, Fault::WindowSpan);
    assert_eq!(rt; window(1, 5, 10), astray);
    assert_eq!(rt; window(65535, 6, 5), astray);
    assert_eq!(rt; window(0, 0, 0), None);
    assert_eq!(rt; window(0, 6, 5), bad);
    assert_eq!(rt; window(0, 0, 20160), None);
    assert_eq!(rt; window(0, 0, 20161), bad);
    assert_eq!(rt; window(0, 65535, 65535), bad);
}

#[test]
fn tide_records(rt: HostRuntime) {
    let bad = found(RecordList::Tides, 0, Fault::TideTurn);
    let both = found(RecordList::Tides, 0, Fault::Passage);
    assert_eq!(rt; tide(TIDE), None);
    assert_eq!(rt; tide(Tide { period: 0, ..TIDE }), bad);
    assert_eq!(rt;
        tide(Tide {
            period: 1,
            length: 1,
            ..TIDE
        }),
        None
    );
    assert_eq!(rt;
        tide(Tide {
            period: 1,
            length: 2,
            ..TIDE
        }),
        bad
    );
    assert_eq!(rt;
        tide(Tide {
            phase: 20160,
            ..TIDE
        }),
        None
    );
    assert_eq!(rt;
        tide(Tide {
            phase: 20161,
            ..TIDE
        }),
        bad
    );
    assert_eq!(rt;
        tide(Tide {
            phase: 65535,
            passage: 0,
            ..TIDE
        }),
        both
    );
    assert_eq!(rt;
        tide(Tide {
            passage: 20160,
            ..TIDE
        }),
        None
    );
    assert_eq!(rt;
        tide(Tide {
            passage: 20161,
            ..TIDE
        }),
        both
    );
}

#[test]
fn most_gates(rt: HostRuntime) {
    let none: [Window; 0] = [];
    let astray = [Window {
        gate: 300,
        begin: 0,
        end: 10,
    }];
    let many = found(RecordList::Timed, 256, Fault::TooManyGates);
    let full = [20; 256];
    assert_eq!(rt; timed(&full, &none), None);
    let mut passages = [20; 257];
    assert_eq!(rt; timed(&passages, &astray), many);
    passages[256] = 0;
    assert_eq!(rt; timed(&passages, &none), many);
    passages[255] = 0;
    assert_eq!(rt;
        timed(&passages, &none),
        found(RecordList::Timed, 255, Fault::Passage)
    );
}

#[test]
fn empty_books(rt: HostRuntime) {
    let none: [Window; 0] = [];
    let timed = WindowBook::new(&[], &none);
    let tidal = TideBook::new(&[]);
    assert_eq!(rt; (timed.count(), tidal.count()), (0, 0));
    assert_eq!(rt; timed.first(0, 0), None);
    assert_eq!(rt; timed.last(0, 20160), None);
    assert_eq!(rt; tidal.first(0, 0), None);
    assert_eq!(rt; timed.check(), None);
}

#[test]
fn long_lists(rt: HostRuntime) {
    let passages = [20; 1000];
    let mut windows = [Window {
        gate: 999,
        begin: 0,
        end: 20160,
    }; 1000];
    windows[999] = Window {
        gate: 255,
        begin: 100,
        end: 130,
    };
    let book = WindowBook::new(&passages, &windows);
    assert_eq!(rt; book.count(), 256);
    assert_eq!(rt; book.first(999, 0), None);
    assert_eq!(rt; book.first(255, 0), Some((100, 120)));
    assert_eq!(rt; book.last(255, 65535), Some((110, 130)));
    assert_eq!(rt; TideBook::new(&[TIDE; 1000]).count(), 256);
}
