//! Caps of Credit2.

ghost use Rattle.sched_examples.specs.Words.{RunsAs, IsSoundFor};
ghost use Rattle.sched_examples.specs.Caps.{machine_capped_domain, entries_capped_domain, machine_late_refill, entries_late_refill, machine_cap_in_mid_run, entries_cap_in_mid_run, machine_overrun_is_paid_back, entries_overrun_is_paid_back};

/// Two units share the budget of their domain by quotas, wait when it is used up, and go on at the refill.
pub fn capped_domain()
    ensures run { RunsAs machine_capped_domain entries_capped_domain }
    ensures sound { IsSoundFor 32 machine_capped_domain }
{}

/// A refill that comes late while both units run charges both, gives the budget of two periods, and leaves the units what they hold.
pub fn late_refill()
    ensures run { RunsAs machine_late_refill entries_late_refill }
    ensures sound { IsSoundFor 36 machine_late_refill }
{}

/// A cap that is set in mid-run makes the running unit decide at once, with the budget of the new cap and a refill 10 milliseconds later.
pub fn cap_in_mid_run()
    ensures run { RunsAs machine_cap_in_mid_run entries_cap_in_mid_run }
    ensures sound { IsSoundFor 21 machine_cap_in_mid_run }
{}

/// A unit that ran far beyond its budget in a stall waits for as many refills as it takes to pay that back.
pub fn overrun_is_paid_back()
    ensures run { RunsAs machine_overrun_is_paid_back entries_overrun_is_paid_back }
    ensures sound { IsSoundFor 23 machine_overrun_is_paid_back }
{}
