// What is ended by a call.
use std::sync::Wait;

/// What is ended by a call, since it can't be let go.
pub trait Close {
    /// Ends it. It takes no memory; it may wait.
    fn close<R: Wait>(self, rt: &R);
}
