// Charts and slices at their edges, searched with the plain reckoning.
use crate::reaches::{Direction, Reach};
use crate::rows::Search;
use crate::tolls::Tolls;

fn reach(from: u16, to: u16, gate: u16) -> Reach {
    Reach { from, to, gate }
}

// From place 0 to 1, from there to 2, and so on.
fn chain() -> [Reach; 63] {
    let mut reaches = [reach(0, 1, 0); 63];
    for from in 0..63 {
        reaches[usize::from(from)] = reach(from, from + 1, 0);
    }
    reaches
}

// The last row of a search along the reaches from place 0, and what it has at a place.
fn found(
    tolls: &[u16],
    reaches: &[Reach],
    start: u16,
    place: usize,
) -> Option<(usize, Option<u16>)> {
    let mut cells = [None; 4096];
    let by = Tolls { tolls };
    let search = Search {
        by: &by,
        direction: Direction::Along,
        reaches,
    };
    let last = search.run(start, 5, &mut cells)?;
    if last < 64 && place < 64 {
        Some((last, cells[64 * last + place]))
    } else {
        None
    }
}

#[test]
fn no_reach(rt: HostRuntime) {
    let none: [Reach; 0] = [];
    assert_eq!(rt; found(&[1], &none, 3, 3), Some((1, Some(5))));
    assert_eq!(rt; found(&[1], &none, 3, 4), Some((1, None)));
}

#[test]
fn places_past_63(rt: HostRuntime) {
    let reaches = [reach(64, 1, 0), reach(0, 64, 0), reach(0, 65535, 0)];
    assert_eq!(rt; found(&[1], &reaches, 64, 1), Some((1, None)));
    assert_eq!(rt; found(&[1], &reaches, 0, 1), Some((1, None)));
    assert_eq!(rt; found(&[1], &reaches, 0, 0), Some((1, Some(5))));
}

#[test]
fn loops_and_better_ways(rt: HostRuntime) {
    let reaches = [
        reach(0, 0, 0),
        reach(0, 2, 2),
        reach(0, 1, 0),
        reach(1, 2, 1),
        reach(2, 1, 0),
        reach(2, 3, 9),
    ];
    assert_eq!(rt; found(&[3, 4, 10], &reaches, 0, 0), Some((3, Some(5))));
    assert_eq!(rt; found(&[3, 4, 10], &reaches, 0, 2), Some((3, Some(12))));
    assert_eq!(rt; found(&[3, 4, 10], &reaches, 0, 3), Some((3, None)));
}

#[test]
fn a_chain_of_63(rt: HostRuntime) {
    let reaches = chain();
    assert_eq!(rt; found(&[1], &reaches, 0, 63), Some((63, Some(68))));
    let mut cells = [None; 4096];
    let by = Tolls { tolls: &[1] };
    let search = Search {
        by: &by,
        direction: Direction::Against,
        reaches: &reaches,
    };
    assert_eq!(rt; search.run(63, 0, &mut cells), Some(63));
    assert_eq!(rt; cells[4032], Some(63));
}

#[test]
fn one_cell_short(rt: HostRuntime) {
    let mut cells = [Some(7); 4095];
    let by = Tolls { tolls: &[1] };
    let search = Search {
        by: &by,
        direction: Direction::Along,
        reaches: &[reach(0, 1, 0)],
    };
    assert_eq!(rt; search.run(0, 0, &mut cells), None);
    assert_eq!(rt; (cells[0], cells[1]), (Some(7), Some(7)));
}

#[test]
fn the_way_back(rt: HostRuntime) {
    let reaches = [
        reach(0, 2, 2),
        reach(0, 1, 0),
        reach(64, 2, 1),
        reach(1, 2, 1),
    ];
    let by = Tolls { tolls: &[3, 4, 10] };
    let search = Search {
        by: &by,
        direction: Direction::Along,
        reaches: &reaches,
    };
    let mut cells = [None; 4096];
    assert_eq!(rt; search.run(0, 5, &mut cells), Some(3));
    assert_eq!(rt; search.back_step(&cells, 1, 2), Some(0));
    assert_eq!(rt; search.back_step(&cells, 2, 2), Some(3));
    assert_eq!(rt; search.back_step(&cells, 1, 1), Some(1));
    assert_eq!(rt; search.back_step(&cells, 2, 3), None);
    assert_eq!(rt; search.back_step(&cells, 0, 0), None);
    assert_eq!(rt; search.back_step(&cells, 64, 0), None);
    assert_eq!(rt; search.back_step(&cells, 1, 64), None);
    assert_eq!(rt; search.back_step(&cells[0..4095], 1, 1), None);
}
