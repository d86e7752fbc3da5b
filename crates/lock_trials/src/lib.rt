//! The worked example of the locks, tried: seats that take turns, and seats in threads of their own.
#![tactic(auto)]

#[cfg(test)]
mod tests;
