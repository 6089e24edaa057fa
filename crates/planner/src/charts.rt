// The planner: a chart of reaches, and notices, over any book.
ghost use Rattle.std.specs.Prelude.{◌≤◌, vec_len, vec_capacity};
ghost use Rattle.planner.specs.Charts.{Charted};

use layers::notices::Noticed;
use search::reaches::Reach;

pub mod changes;
pub mod questions;

// So many reaches can be laid.
pub const MOST_REACHES: usize = 256;

// The chart, which is the list of the reaches laid, over a book under notices; room for 256 reaches is reserved.
#[derive(Drop)]
pub struct Planner<B> {
    noticed: Noticed<B>,
    reaches: Vec<Reach>,
    ghost room: { (256 ≤ vec_capacity reaches) × (vec_len reaches ≤ 256) },
    ghost charted: { Charted reaches.items },
}
