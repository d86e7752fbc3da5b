//! Domains that are paused, and domains that have a pool to move to.

ghost use Rattle.std.specs.Prelude.{◌≡◌};
ghost use Rattle.sched_model.specs.declared.state.Domain.{Domain as DomainRecord};
ghost use Rattle.sched_model.specs.Places.{change_at};

use sched_base::{DomId, PoolId};
use sched_model::row::Row;
use sched_model::state::Domain;

/// The domain is paused, or no longer.
pub fn set_paused(d: DomId, paused: bool, domains: &mut Row<Option<Domain>>)
    ensures { domains.new ≡ change_at d.0 (λ (domain : DomainRecord).
        record domain { paused = paused }) domains.old }
{
    if let Some(place) = domains.get_mut(d.0 as usize)
        && let Some(domain) = place
    {
        domain.paused = paused;
    }
}

/// The domain has this pool to move to, or none any more.
pub fn set_target(d: DomId, to: Option<PoolId>, domains: &mut Row<Option<Domain>>)
    ensures { domains.new ≡ change_at d.0 (λ (domain : DomainRecord).
        record domain { moving = to }) domains.old }
{
    if let Some(place) = domains.get_mut(d.0 as usize)
        && let Some(domain) = place
    {
        domain.moving = to;
    }
}
