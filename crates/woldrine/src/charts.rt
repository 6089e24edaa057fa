// A search over a small chart, printed row by row.
use crate::texts::Cell;
use search::reaches::{Direction, Reach};
use search::rows::Search;
use search::tolls::Tolls;
use std::io;

// Four places and four reaches. The way from 0 to 2 with fewest reaches is not the cheapest.
pub(crate) fn show_search(rt: &HostRuntime) -> io::Result<()> {
    let reaches = [
        Reach {
            from: 0,
            to: 1,
            gate: 0,
        },
        Reach {
            from: 1,
            to: 2,
            gate: 1,
        },
        Reach {
            from: 0,
            to: 2,
            gate: 2,
        },
        Reach {
            from: 2,
            to: 3,
            gate: 0,
        },
    ];
    let by = Tolls { tolls: &[3, 4, 10] };
    let search = Search {
        by: &by,
        direction: Direction::Along,
        reaches: &reaches,
    };
    let mut cells = [None; 4096];
    println!(rt; "search from place 0, gates with tolls 3, 4 and 10")?;
    if let Some(last) = search.run(0, 0, &mut cells) {
        for (k, row) in (0..=last).zip(cells.chunks(64)) {
            if let [a, b, c, d, ..] = row {
                println!(rt;
                    "row {k}: {} {} {} {}",
                    Cell(*a),
                    Cell(*b),
                    Cell(*c),
                    Cell(*d)
                )?;
            }
        }
    }
    Ok(())
}
