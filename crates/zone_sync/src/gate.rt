//! What a run asks before its readers read and before it transfers the zone.

/// Is asked before each read of a reader on a thread, and before the transfer. One that waits holds what asks it, so that a test can say what comes first.
pub trait Gate {
    /// The reader of this number, counted from 1, is to read.
    fn before_read(&self, reader: u64);

    /// The zone is to be transferred.
    fn before_transfer(&self);
}

/// It holds nothing.
pub struct OpenGate;

impl Gate for OpenGate {
    fn before_read(&self, _reader: u64) {}

    fn before_transfer(&self) {}
}
