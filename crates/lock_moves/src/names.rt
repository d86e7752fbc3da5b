//! Sets of names.

ghost use Rattle.std.specs.Prelude.{◌≡◌, ◌<◌};
ghost use Rattle.lock_moves.specs.NameSets.{in_names};

/// A set of cores and a set of domains, with bit n for the number n.
#[derive(Clone, Copy, Default)]
pub struct Names {
    pub res: u64,
    pub dom: u64,
}

impl Names {
    /// Whether the sets have the name with this number: that of a core, or 64 more than that of a domain.
    pub fn has(self, name: usize) -> bool
        requires { name < 128 }
        ensures { result ≡ in_names self name }
    {
        if name < 64 {
            (self.res >> name) % 2 == 1
        } else {
            (self.dom >> (name - 64)) % 2 == 1
        }
    }
}
