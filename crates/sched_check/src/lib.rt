//! A checker of schedules: each entry is judged by the plain machine, and taken where it may come next; and the verdict on the bytes of a
//! schedule, whether they are the text of a whole run of the machine, and if not, which line is not and why.
#![tactic(auto)]

pub mod checker;
pub mod entries;
pub mod judge;
pub mod laws;
pub mod print;
pub mod refusal;
pub mod same;
pub mod taken;
pub mod verdict;
