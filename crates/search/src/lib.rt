// One search by rising number of reaches, for every reckoning that keeps the laws.
#![tactic(auto)]

pub mod reaches;
pub mod reckoning;
mod rounds;
pub mod rows;
#[cfg(test)]
mod tests;
pub mod tolls;
pub mod ways;
