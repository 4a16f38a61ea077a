//! Where workers are watched.

/// A moment of a worker's task.
#[derive(Clone, Copy, Debug, PartialEq, Eq)]
pub enum Moment {
    /// Before a routine is transformed.
    Transform,
    /// Before the disk is read.
    DiskRead,
    /// Before the disk is written.
    DiskWrite,
}

/// Is told of each moment, so that a test can hold workers up. It answers nothing and never fails.
pub trait Gate {
    /// The worker of this number has come to this moment.
    fn at(&self, worker: u32, m: Moment);
}
