//! The history and the status board, tried: a book that is filled entry by entry, and readers in threads of their own.
#![tactic(auto)]

#[cfg(test)]
mod board;
#[cfg(test)]
mod histories;
