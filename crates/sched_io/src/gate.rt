//! A gate that a worker passes while it holds a pool's lock.

/// What each actor passes while it holds a pool's lock and not the history's. It changes nothing; a test's gate may
/// hold the caller until another actor comes.
pub trait Gate {
    /// Lets the actor with this number pass.
    fn pass(&self, who: u32);
}

/// A gate that is always open.
#[derive(Clone, Copy)]
pub struct OpenGate;

impl Gate for OpenGate {
    /// Returns at once.
    fn pass(&self, _who: u32) {}
}
