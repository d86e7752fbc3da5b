//! The pools and domains that commands name.

use crate::outline::Outline;
use crate::pools::size_in;
use crate::tool::ToolState;
use sched_base::{DomId, PoolId};
use sched_model::command::Which;
use sched_model::places::item_at;

/// A pool that a command names: its number, and what the tool knows of it.
#[derive(Clone, Copy)]
pub(crate) struct NamedPool<'a> {
    pub(crate) i: PoolId,
    pub(crate) pool: &'a Outline,
}

/// A domain that a command names: its number, its home, what the tool knows of that, and the number of the domain's vCPUs.
#[derive(Clone, Copy)]
pub(crate) struct NamedDomain<'a> {
    pub(crate) d: DomId,
    pub(crate) i: PoolId,
    pub(crate) pool: &'a Outline,
    pub(crate) vcpus: u8,
}

impl ToolState {
    ghost use Rattle.std.specs.Prelude.{◌≡◌, option_map};
    ghost use Rattle.cpupool.specs.Verdicts.{seen_outline, seen_size, seen_at};
    ghost use Rattle.cpupool.specs.NamedDomains.{seen_named_pool, seen_named_domain};

    /// The pool that a command names, with what the tool knows of it.
    pub(crate) fn named_pool(&self, which: &Which) -> Option<NamedPool>
        ensures { option_map seen_named_pool result ≡ seen_outline self.now which.now }
    {
        let i = self.pool_of(which)?;
        match item_at(self.pools.as_slice(), i.0 as usize) {
            None => None,
            Some(pool) => Some(NamedPool { i, pool }),
        }
    }

    /// The domain d, where this pool has it.
    fn domain_in(&self, d: DomId, place: PoolId) -> Option<NamedDomain>
        ensures { option_map seen_named_domain result ≡ seen_at self.now.part d.0 place.0 }
    {
        match item_at(self.pools.as_slice(), place.0 as usize) {
            None => None,
            Some(pool) => match size_in(pool, d) {
                None => None,
                Some(vcpus) => Some(NamedDomain {
                    d,
                    i: place,
                    pool,
                    vcpus,
                }),
            },
        }
    }

    /// The domain that a command names, with its home and its size.
    pub(crate) fn named_domain(&self, which: &Which) -> Option<NamedDomain>
        ensures { option_map seen_named_domain result ≡ seen_size self.now which.now }
    {
        let d = self.domain_of(which)?;
        let i = self.domain_pool(d)?;
        self.domain_in(d, i)
    }
}
