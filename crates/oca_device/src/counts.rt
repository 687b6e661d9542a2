//! How the commands of a datagram were served.

/// How many commands were served in which way.
#[derive(Clone, Copy, Debug, PartialEq, Eq)]
pub struct Counts {
    /// Commands that were executed.
    pub executed: u32,
    /// Duplicates whose reply is retained.
    pub kept: u32,
    /// Commands that are too old.
    pub old: u32,
    /// Commands that ask something else under the handle of a retained one.
    pub reused: u32,
}

/// No command.
pub const NONE: Counts = Counts {
    executed: 0,
    kept: 0,
    old: 0,
    reused: 0,
};
