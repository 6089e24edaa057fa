// How lines are read.
use crate::cases::{Ask, Call, Line, Question, Record, Repeat, Room};
use crate::series::{Change, Scatter, Series};
use books::tides::Tide;
use books::windows::Window;
use layers::notices::Notice;
use planner::trips::Trip;
use search::reaches::Reach;
use std::num::{ParseIntError, TryFromIntError};
use std::str::FromStr;

// A text isn't written as it must be.
#[derive(Clone, Copy)]
pub(crate) struct Unreadable;

impl From<ParseIntError> for Unreadable {
    fn from(_error: ParseIntError) -> Unreadable {
        Unreadable
    }
}

impl From<TryFromIntError> for Unreadable {
    fn from(_error: TryFromIntError) -> Unreadable {
        Unreadable
    }
}

// The numbers in a text, parted by single spaces, if there are just so many.
fn numbers<const N: usize>(text: &str) -> Result<[u16; N], Unreadable> {
    let mut words = text.split(' ');
    let mut numbers = [0; N];
    for number in numbers.iter_mut() {
        *number = words.next().ok_or(Unreadable)?.parse()?;
    }
    words.next().is_none().then_some(numbers).ok_or(Unreadable)
}

impl FromStr for Record {
    type Err = Unreadable;

    fn from_str(text: &str) -> Result<Record, Unreadable> {
        let (word, rest) = text.split_once(' ').ok_or(Unreadable)?;
        match word {
            "timed" => Ok(Record::Timed(rest.parse()?)),
            "window" => {
                let [gate, begin, end] = numbers::<3>(rest)?;
                Ok(Record::Window(Window { gate, begin, end }))
            }
            "tide" => {
                let [phase, period, length, passage] = numbers::<4>(rest)?;
                Ok(Record::Tide(Tide {
                    phase,
                    period,
                    length,
                    passage,
                }))
            }
            _ => Err(Unreadable),
        }
    }
}

impl FromStr for Change {
    type Err = Unreadable;

    fn from_str(text: &str) -> Result<Change, Unreadable> {
        let (word, rest) = text.split_once(' ').ok_or(Unreadable)?;
        match word {
            "lay" => {
                let [from, to, gate] = numbers::<3>(rest)?;
                Ok(Change::Lay(Reach { from, to, gate }))
            }
            "post" => {
                let [gate, begin, end] = numbers::<3>(rest)?;
                Ok(Change::Post(Notice { gate, begin, end }))
            }
            "lift" => {
                let [gate, begin, end] = numbers::<3>(rest)?;
                Ok(Change::Lift(Notice { gate, begin, end }))
            }
            _ => Err(Unreadable),
        }
    }
}

impl FromStr for Repeat {
    type Err = Unreadable;

    fn from_str(text: &str) -> Result<Repeat, Unreadable> {
        let (word, rest) = text.split_once(' ').ok_or(Unreadable)?;
        match word {
            "times" => {
                let (count, change) = rest.split_once(' ').ok_or(Unreadable)?;
                Ok(Repeat {
                    count: count.parse()?,
                    series: Series::Same(change.parse()?),
                })
            }
            "chain" => {
                let [count, gate] = numbers::<2>(rest)?;
                Ok(Repeat {
                    count: count.try_into()?,
                    series: Series::Chain(gate),
                })
            }
            "scatter" => {
                let [seed, count, places, gates] = numbers::<4>(rest)?;
                let scatter = Scatter {
                    x: u32::from(seed),
                    places: places.try_into()?,
                    gates: gates.try_into()?,
                };
                Ok(Repeat {
                    count: count.try_into()?,
                    series: Series::Scattered(scatter),
                })
            }
            _ => Err(Unreadable),
        }
    }
}

impl FromStr for Ask {
    type Err = Unreadable;

    fn from_str(text: &str) -> Result<Ask, Unreadable> {
        match text {
            "foremost" => Ok(Ask::Foremost),
            "fewest" => Ok(Ask::Fewest),
            "latest" => Ok(Ask::Latest),
            _ => Err(Unreadable),
        }
    }
}

impl FromStr for Question {
    type Err = Unreadable;

    fn from_str(text: &str) -> Result<Question, Unreadable> {
        let (ask, rest) = text.split_once(' ').ok_or(Unreadable)?;
        let [from, to, instant] = numbers::<3>(rest)?;
        Ok(Question {
            ask: ask.parse()?,
            trip: Trip { from, to, instant },
        })
    }
}

impl FromStr for Call {
    type Err = Unreadable;

    fn from_str(text: &str) -> Result<Call, Unreadable> {
        text.parse()
            .map(Call::Change)
            .or_else(|_| text.parse().map(Call::Repeat))
            .or_else(|_| text.parse().map(Call::Question))
    }
}

impl FromStr for Line {
    type Err = Unreadable;

    fn from_str(text: &str) -> Result<Line, Unreadable> {
        if text.trim().is_empty() || text.starts_with('#') {
            return Ok(Line::Aside);
        }
        let (word, rest) = text.split_once(' ').unwrap_or((text, ""));
        match word {
            "sheet" => Ok(Line::Sheet),
            "room" => {
                let [cells, legs] = numbers::<2>(rest)?;
                Ok(Line::Room(Room {
                    cells: usize::from(cells),
                    legs: usize::from(legs),
                }))
            }
            _ => text
                .parse()
                .map(Line::Record)
                .or_else(|_| text.parse().map(Line::Call)),
        }
    }
}
