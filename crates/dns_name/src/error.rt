// The error of labels and names.
use crate::octets::ParseError;
use thiserror::Error;

/// The octets are no label or no name, or the labels of a name are too long together.
#[derive(Clone, Copy, Debug, PartialEq, Eq, Drop, Error)]
#[error("not a domain name")]
pub struct NameError;

impl From<NameError> for ParseError {
    fn from(_: NameError) -> ParseError {
        ParseError
    }
}
