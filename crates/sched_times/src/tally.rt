//! What is kept of each core and processor, and of each unit and vCPU that has them. Times are nanoseconds of the range.

ghost use Rattle.std.specs.Prelude.{◌≡◌, ◌+◌, ◌<◌, ◌≤◌, IfSome, Some, None, length};
ghost use Rattle.sched_times.specs.Tallies.{ResourceWithin, UserWithin, UsersWithin, ResourcesWithin, open_use, open_run, open_wait};
ghost use Rattle.sched_times.specs.Tallies as tallies;

use crate::grant::{Grant, Sleep};

/// A core or a processor: who has it and since when, and for how long somebody had it before.
#[derive(Clone, Copy)]
pub struct ResourceTally {
    pub user: Option<usize>,
    pub since: u64,
    pub used: u64,
}

/// A unit or a vCPU: the core or processor that it has, whether it sleeps, and for how long it ran and waited up to `since`.
#[derive(Clone, Copy)]
pub struct UserTally {
    pub has: Option<u8>,
    pub asleep: bool,
    pub since: u64,
    pub runs: u64,
    pub waits: u64,
}

impl ResourceTally {
    /// Given to nobody.
    pub const UNUSED: ResourceTally = ResourceTally {
        user: None,
        since: 0,
        used: 0,
    };

    /// For how long somebody had it, up to now.
    pub fn used_at(&self, now: u64) -> u64
        requires { ResourceWithin now self.now }
        ensures { result ≡ self.now.used + open_use now self.now }
    {
        if self.user.is_some() {
            self.used + (now - self.since)
        } else {
            self.used
        }
    }
}

impl UserTally {
    /// Awake, with nothing.
    pub const AWAKE: UserTally = UserTally {
        has: None,
        asleep: false,
        since: 0,
        runs: 0,
        waits: 0,
    };

    /// For how long it ran, up to now.
    pub fn run_at(&self, now: u64) -> u64
        requires { UserWithin now self.now }
        ensures { result ≡ self.now.runs + open_run now self.now }
    {
        if self.has.is_some() {
            self.runs + (now - self.since)
        } else {
            self.runs
        }
    }

    /// For how long it waited, up to now.
    pub fn wait_at(&self, now: u64) -> u64
        requires { UserWithin now self.now }
        ensures { result ≡ self.now.waits + open_wait now self.now }
    {
        if self.has.is_none() && !self.asleep {
            self.waits + (now - self.since)
        } else {
            self.waits
        }
    }

    /// The same with all counted up to now.
    fn settled(&self, now: u64) -> UserTally
        requires { UserWithin now self.now }
        ensures { result ≡ tallies.settled now self.now }
    {
        UserTally {
            since: now,
            runs: self.run_at(now),
            waits: self.wait_at(now),
            ..*self
        }
    }
}

/// The user has this from now on, if it is one of these.
fn hand(users: &mut [UserTally], k: usize, has: Option<u8>, now: u64)
    requires { UsersWithin now users.old }
    ensures { users.new ≡ tallies.changed_at (Some k) (tallies.having has now) users.old }
{
    if k < users.len() {
        users[k] = UserTally {
            has,
            ..users[k].settled(now)
        };
    }
}

/// Takes from its user what is given.
fn take_back(users: &mut [UserTally], grant: &Grant, user: Option<usize>, now: u64)
    requires { UsersWithin now users.old }
    ensures { users.new ≡ tallies.changed_at (tallies.loser grant.now user users.old) (tallies.having None now) users.old }
{
    if let Some(k) = user
        && k < users.len()
        && users[k].has == Some(grant.on)
    {
        hand(users, k, None, now);
    }
}

/// Gives a core or processor. Its user loses it.
fn give(resources: &mut [ResourceTally], users: &mut [UserTally], grant: &Grant, now: u64)
    requires many { length resources.old ≡ 256 }
    requires resources { ResourcesWithin now resources.old }
    requires users { UsersWithin now users.old }
    ensures resources { resources.new ≡ tallies.resources_given grant.now now resources.old }
    ensures users { users.new ≡ tallies.users_given grant.now now resources.old users.old }
{
    let r = usize::from(grant.on);
    let was = resources[r];
    take_back(users, grant, was.user, now);
    if let Some(k) = grant.to {
        hand(users, k, Some(grant.on), now);
    }
    resources[r] = ResourceTally {
        user: grant.to,
        since: now,
        used: was.used_at(now),
    };
}

/// A sleep begins or ends.
fn set_asleep(users: &mut [UserTally], sleep: &Sleep, now: u64)
    requires { UsersWithin now users.old }
    ensures { users.new ≡ tallies.users_slept (Some sleep.now) now users.old }
{
    if let Some(k) = sleep.who
        && k < users.len()
    {
        users[k] = UserTally {
            asleep: sleep.asleep,
            ..users[k].settled(now)
        };
    }
}

/// A core or processor is given, where one is.
fn give_if(resources: &mut [ResourceTally], users: &mut [UserTally], grant: Option<Grant>, now: u64)
    requires many { length resources.old ≡ 256 }
    requires resources { ResourcesWithin now resources.old }
    requires users { UsersWithin now users.old }
    ensures resources { resources.new ≡ tallies.resources_with grant now resources.old }
    ensures users { users.new ≡ tallies.users_with grant now resources.old users.old }
    ensures low { IfSome grant (λ g. g.on < 256) }
{
    if let Some(grant) = grant {
        give(resources, users, &grant, now);
    }
}

/// What an entry gives, and whose sleep it begins or ends.
pub fn tell(
    resources: &mut [ResourceTally],
    users: &mut [UserTally],
    grant: Option<Grant>,
    sleep: Option<Sleep>,
    now: u64,
)
    requires many { length resources.old ≡ 256 }
    requires resources { ResourcesWithin now resources.old }
    requires users { UsersWithin now users.old }
    ensures resources { resources.new ≡ tallies.resources_with grant now resources.old }
    ensures users { users.new ≡ tallies.users_slept sleep now
        (tallies.users_with grant now resources.old users.old) }
    ensures low { IfSome grant (λ g. g.on < 256) }
{
    give_if(resources, users, grant, now);
    if let Some(sleep) = sleep {
        set_asleep(users, &sleep, now);
    }
}
