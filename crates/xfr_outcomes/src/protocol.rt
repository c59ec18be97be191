//! Why a message, or a record of one, isn't read as part of a transfer.

use thiserror::Error;

/// Why a message as a whole isn't taken.
#[derive(Clone, Copy, Debug, PartialEq, Eq, Error)]
pub enum Error {
    /// The answer section can't be reached. The text ends with that of `ParseError`.
    #[error("XFR response parsing error: unexpected end or malformed item")]
    ParseError,
    /// Header, counts or the first record are not those of a transfer's reply (RFC 5936, 2.2).
    #[error("Not a valid XFR response")]
    NotValidXfrResponse,
    /// The first message asks for something else, or its first record can't be read.
    #[error("Malformed XFR response")]
    Malformed,
    /// The transfer's end was read before.
    #[error("XFR already finished")]
    Finished,
}

/// Why the updates of a message end early.
#[derive(Clone, Copy, Debug, PartialEq, Eq, Error)]
pub enum IterationError {
    /// A record can't be read.
    #[error("a record can't be parsed")]
    ParseError,
    /// A record stands after the transfer's end in its message.
    #[error("a record stands behind the end of the transfer")]
    AlreadyFinished,
    /// The first message answers a question for changes with one SOA alone: ask again, for the whole zone or by
    /// another transport (RFC 1995, 2 and 4).
    #[error("a single SOA asks for another way of transfer")]
    SingleSoaIxfrTcpRetrySignal,
    /// Never comes: a first message without an SOA at its front is refused as a whole.
    #[error("the initial SOA is missing")]
    MissingInitialSoa,
}
