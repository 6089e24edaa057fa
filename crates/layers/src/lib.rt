// Layers over any book: two books side by side, and notices that shut gates for a time.
#![tactic(auto)]

pub mod notices;
pub mod replies;
#[cfg(test)]
mod tests;
mod toward;
pub mod two_books;
pub mod worked;
