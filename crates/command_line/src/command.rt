//! The commands.

/// What is written of a run.
#[derive(Clone, Copy)]
pub enum Form {
    /// Its entries, one a line.
    Schedule,
    /// What each unit and each core did.
    Report,
    /// What a reader of a status board saw of it in each of its moments.
    Watch,
}

/// Which of the two texts that are made from a number.
#[derive(Clone, Copy)]
pub enum Made {
    /// The domain file.
    Domains,
    /// The work file.
    Work,
}

/// A command.
#[derive(Clone, Copy)]
pub enum ProgramCommand<'a> {
    /// A run on two files, the ordered one or any, with at most `limit` entries, 1 to 4,000,000. A watched run is never the ordered one.
    Run {
        ordered: bool,
        form: Form,
        limit: u32,
        domains: &'a str,
        work: &'a str,
    },
    /// One text of those that are made from a number: a seed below 2^31, and 1 to 64 processors and domains.
    Make {
        seed: u32,
        processors: u8,
        domains: u8,
        text: Made,
    },
    /// The report of the ordered run on both texts that are made from these.
    Load {
        seed: u32,
        processors: u8,
        domains: u8,
    },
    /// Whether the schedule is a run on two files, in the order that is written down or in any.
    Check {
        ordered: bool,
        domains: &'a str,
        work: &'a str,
        schedule: &'a str,
    },
}
