//! The leaves and the queues under the schedulers, and the outside, tried with numbers that were worked out by hand.
#![tactic(auto)]

#[cfg(test)]
mod burns;
#[cfg(test)]
mod caps;
#[cfg(test)]
mod dues;
#[cfg(test)]
mod outside;
#[cfg(test)]
mod queues;
#[cfg(test)]
mod resets;
#[cfg(test)]
mod rings;
