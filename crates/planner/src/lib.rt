// The passage planner: reaches and notices over a book, and the questions that it answers.
#![tactic(auto)]

pub mod charts;
mod departures;
mod headings;
pub mod legs;
pub mod reckonings;
pub mod refusals;
pub mod trips;
mod ways;
pub mod worked;
