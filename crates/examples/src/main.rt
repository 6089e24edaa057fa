// Reads cases from standard input, carries them out through the planner, and prints each with its reply.
#![tactic(auto)]

use crate::cases::read_cases;
use crate::runs::run;
use std::io;

mod cases;
mod reading;
mod records;
mod replies;
mod runs;
mod series;
mod sheets;

fn main(rt: HostRuntime) -> io::Result<()> {
    let text = io::read_to_string(rt.alloc(), rt.stdin())?;
    let cases = read_cases(rt.alloc(), text.as_str())?;
    run(&rt, &cases)
}
