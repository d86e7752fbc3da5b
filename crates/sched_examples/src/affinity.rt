//! Sets of cores of units.

ghost use Rattle.sched_examples.specs.Words.{RunsAs, IsSoundFor};
ghost use Rattle.sched_examples.specs.Affinity.{machine_pins_of_the_file, entries_pins_of_the_file, machine_pin_by_command, entries_pin_by_command, machine_pins_are_refused, entries_pins_are_refused, machine_pin_and_refusals, entries_pin_and_refusals};

/// Units that may be on one core share it, and the other core idles.
pub fn pins_of_the_file()
    ensures run { RunsAs machine_pins_of_the_file entries_pins_of_the_file }
    ensures sound { IsSoundFor 14 machine_pins_of_the_file }
{}

/// A unit that is pinned elsewhere leaves its core at once, and that core takes another.
pub fn pin_by_command()
    ensures run { RunsAs machine_pin_by_command entries_pin_by_command }
    ensures sound { IsSoundFor 23 machine_pin_by_command }
{}

/// A set of cores is refused for an unknown domain or unit, a processor that is not there, and cores of no pool of the domain.
pub fn pins_are_refused()
    ensures run { RunsAs machine_pins_are_refused entries_pins_are_refused }
    ensures sound { IsSoundFor 19 machine_pins_are_refused }
{}

/// A refused command leaves what an earlier one of the same moment has pinned.
pub fn pin_and_refusals()
    ensures run { RunsAs machine_pin_and_refusals entries_pin_and_refusals }
    ensures sound { IsSoundFor 28 machine_pin_and_refusals }
{}
