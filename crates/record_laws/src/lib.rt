//! Laws of scheduler records: what one decision makes of each domain of a Credit2 pool, and of each unit of an RTDS pool. The function does nothing, and
//! its contract is the law.
#![tactic(auto)]

pub mod decisions;
