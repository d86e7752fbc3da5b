//! Cores of two processors.

ghost use Rattle.sched_examples.specs.Words.{RunsAs, IsSoundFor};
ghost use Rattle.sched_examples.specs.Siblings.{machine_siblings_meet, entries_siblings_meet, machine_sibling_stalls, entries_sibling_stalls};

/// Both processors of a core arrive, the core decides, and each runs the vCPU at its place of one unit.
pub fn siblings_meet()
    ensures run { RunsAs machine_siblings_meet entries_siblings_meet }
    ensures sound { IsSoundFor 15 machine_siblings_meet }
{}

/// A processor whose sibling stalls waits for it, and the core decides late.
pub fn sibling_stalls()
    ensures run { RunsAs machine_sibling_stalls entries_sibling_stalls }
    ensures sound { IsSoundFor 18 machine_sibling_stalls }
{}
