//! ARINC 653 pools.

ghost use Rattle.sched_examples.specs.Words.{RunsAs, IsSoundFor};
ghost use Rattle.sched_examples.specs.Arinc.{machine_windows_of_a_frame, entries_windows_of_a_frame, machine_guest_sleeps_in_its_window, entries_guest_sleeps_in_its_window, machine_stall_over_two_frames, entries_stall_over_two_frames, machine_frames_by_command, entries_frames_by_command};

/// Each window of the frame has its unit, and the core idles in the rest of the frame.
pub fn windows_of_a_frame()
    ensures run { RunsAs machine_windows_of_a_frame entries_windows_of_a_frame }
    ensures sound { IsSoundFor 39 machine_windows_of_a_frame }
{}

/// A unit that sleeps leaves the rest of its window idle, and has it again once it wakes.
pub fn guest_sleeps_in_its_window()
    ensures run { RunsAs machine_guest_sleeps_in_its_window entries_guest_sleeps_in_its_window }
    ensures sound { IsSoundFor 22 machine_guest_sleeps_in_its_window }
{}

/// A processor that stalls over more than two frames goes on with the window of the moment at which it is back, and says how late it is.
pub fn stall_over_two_frames()
    ensures run { RunsAs machine_stall_over_two_frames entries_stall_over_two_frames }
    ensures sound { IsSoundFor 13 machine_stall_over_two_frames }
{}

/// Frames that do not fit, or that name a unit that is not there, are refused, and so is a second core; a frame that is set begins at its moment.
pub fn frames_by_command()
    ensures run { RunsAs machine_frames_by_command entries_frames_by_command }
    ensures sound { IsSoundFor 21 machine_frames_by_command }
{}
