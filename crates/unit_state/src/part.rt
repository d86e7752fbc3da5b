//! A domain on its way.

use sched_base::DomId;
use sched_model::state::Domain;

/// A domain with its number and how many vCPUs each of its units has, as one pool gives it to another.
#[derive(Drop)]
pub struct DomPart {
    pub d: DomId,
    pub granularity: u8,
    pub domain: Domain,
}
