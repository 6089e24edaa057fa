// Books: when each gate lets a boat in, and when the boat comes out.
#![tactic(auto)]

pub mod book;
pub mod faults;
mod gate_rule;
pub mod passages;
mod records;
#[cfg(test)]
mod tests;
pub mod tides;
pub mod windows;
