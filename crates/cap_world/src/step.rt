//! The steps of a world (`Step`), and what became of one (`Did`).

/// A step of the world.
#[derive(Clone, Copy, Debug)]
pub enum Step<'a> {
    /// The connection of this number opens. A number is opened once.
    Open(u32),
    /// A piece of bytes comes on the connection.
    Bytes(u32, &'a [u8]),
    /// The connection ends.
    End(u32),
    /// The worker of this number, 0 to 63, copies the cluster.
    Copy(u32),
    /// The worker proposes on its copy, with the nodes as a ring from this place on.
    Propose(u32, u32),
    /// The worker's proposal is tried on the cluster.
    Commit(u32),
}

/// What became of a step.
#[derive(Clone, Copy, Debug, PartialEq, Eq)]
pub enum Did {
    Done,
    /// The step did not apply, and nothing changed.
    Idle,
}
