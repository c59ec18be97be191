//! The first line of a report: how the transfer ended.
ghost use Rattle.std.specs.Prelude.{◌≡◌, ◌++◌, ◌∷◌, codes, OnOk};
ghost use Rattle.zone_report.specs.Report.{line, answer_words, refusal_words, signature_words, message_words, item_words, update_words};

use crate::numbers::append_number;
use std::alloc::{AllocError, Global};
use tsig_port::ValidationError;
use xfr_outcomes::{SyncError, SyncOk, protocol, update};

/// The outcome line at the end of `out`; it has the number of versions made where the transfer brought one. Want of memory isn't
/// reported.
pub(crate) fn append_outcome(
    alloc: Global,
    out: &mut Vec<u8>,
    outcome: &Result<SyncOk, SyncError>,
    made: usize,
) -> Result<(), AllocError>
    ensures { OnOk result (out.new.items ≡ out.old.items ++ line (answer_words outcome.now made)) }
{
    match outcome {
        Ok(SyncOk::Updated) => {
            out.extend_from_slice(b"updated ")?;
            append_number(alloc, out, made as u64)?;
            out.extend_from_slice(b"\n")
        }
        Ok(SyncOk::UpToDate) => out.extend_from_slice(b"up-to-date\n"),
        Err(SyncError::Tsig(why)) => append_signature(alloc, out, *why),
        Err(error) => append_refusal(out, error),
    }
}

/// The line of a refused signature (RFC 8945, 5.3 and 5.4).
fn append_signature(
    alloc: Global,
    out: &mut Vec<u8>,
    why: ValidationError,
) -> Result<(), AllocError>
    ensures { OnOk result (out.new.items ≡ out.old.items ++ line (codes "refused" ∷ codes "tsig" ∷ signature_words why)) }
{
    match why {
        ValidationError::ServerBadTime { client, server } => {
            out.extend_from_slice(b"refused tsig server-bad-time ")?;
            append_number(alloc, out, u64::from(client))?;
            out.extend_from_slice(b" ")?;
            append_number(alloc, out, u64::from(server))?;
            out.extend_from_slice(b"\n")
        }
        ValidationError::BadAlg => out.extend_from_slice(b"refused tsig bad-alg\n"),
        ValidationError::BadOther => out.extend_from_slice(b"refused tsig bad-other\n"),
        ValidationError::BadSig => out.extend_from_slice(b"refused tsig bad-sig\n"),
        ValidationError::BadTrunc => out.extend_from_slice(b"refused tsig bad-trunc\n"),
        ValidationError::BadKey => out.extend_from_slice(b"refused tsig bad-key\n"),
        ValidationError::BadTime => out.extend_from_slice(b"refused tsig bad-time\n"),
        ValidationError::FormErr => out.extend_from_slice(b"refused tsig form-err\n"),
        ValidationError::ServerUnsigned => {
            out.extend_from_slice(b"refused tsig server-unsigned\n")
        }
        ValidationError::ServerBadKey => out.extend_from_slice(b"refused tsig server-bad-key\n"),
        ValidationError::ServerBadSig => out.extend_from_slice(b"refused tsig server-bad-sig\n"),
        ValidationError::TooManyUnsigned => {
            out.extend_from_slice(b"refused tsig too-many-unsigned\n")
        }
    }
}

/// The line of another refusal; want of memory has none.
fn append_refusal(out: &mut Vec<u8>, error: &SyncError) -> Result<(), AllocError>
    ensures { OnOk result (out.new.items ≡ out.old.items ++ line (codes "refused" ∷ refusal_words error.now)) }
{
    match error {
        SyncError::NoSoa => out.extend_from_slice(b"refused no-soa\n"),
        SyncError::Request(_) => out.extend_from_slice(b"refused request-too-long\n"),
        SyncError::LinkFault => out.extend_from_slice(b"refused link-fault\n"),
        SyncError::Ended => out.extend_from_slice(b"refused ended\n"),
        SyncError::Short(_) => out.extend_from_slice(b"refused short\n"),
        SyncError::Primary(_) => out.extend_from_slice(b"refused primary\n"),
        SyncError::TooManyMessages => out.extend_from_slice(b"refused too-many-messages\n"),
        SyncError::OtherAnswer => out.extend_from_slice(b"refused other-answer\n"),
        SyncError::Xfr(why) => append_message(out, *why),
        SyncError::Iteration(why) => append_record(out, *why),
        SyncError::Update(why) => append_update(out, *why),
        SyncError::VersionsExhausted => out.extend_from_slice(b"refused versions-exhausted\n"),
        SyncError::Tsig(_) | SyncError::Memory => Err(AllocError),
    }
}

/// The line of a reply that isn't one of a transfer.
fn append_message(out: &mut Vec<u8>, why: protocol::Error) -> Result<(), AllocError>
    ensures { OnOk result (out.new.items ≡ out.old.items ++ line (codes "refused" ∷ message_words why)) }
{
    match why {
        protocol::Error::NotValidXfrResponse => out.extend_from_slice(b"refused not-valid\n"),
        protocol::Error::ParseError => out.extend_from_slice(b"refused malformed\n"),
        protocol::Error::Malformed => out.extend_from_slice(b"refused malformed\n"),
        protocol::Error::Finished => out.extend_from_slice(b"refused after-end\n"),
    }
}

/// The line of a record that can't be read where it stands.
fn append_record(out: &mut Vec<u8>, why: protocol::IterationError) -> Result<(), AllocError>
    ensures { OnOk result (out.new.items ≡ out.old.items ++ line (codes "refused" ∷ item_words why)) }
{
    match why {
        protocol::IterationError::ParseError => {
            out.extend_from_slice(b"refused record-unreadable\n")
        }
        protocol::IterationError::AlreadyFinished => out.extend_from_slice(b"refused after-end\n"),
        protocol::IterationError::SingleSoaIxfrTcpRetrySignal => {
            out.extend_from_slice(b"refused retry-signal\n")
        }
        protocol::IterationError::MissingInitialSoa => {
            out.extend_from_slice(b"refused not-valid\n")
        }
    }
}

/// The line of an update that doesn't fit; want of memory has none.
fn append_update(out: &mut Vec<u8>, why: update::Error) -> Result<(), AllocError>
    ensures { OnOk result (out.new.items ≡ out.old.items ++ line (codes "refused" ∷ update_words why)) }
{
    match why {
        update::Error::IncompatibleUpdate => out.extend_from_slice(b"refused incompatible\n"),
        update::Error::OutOfZone => out.extend_from_slice(b"refused out-of-zone\n"),
        update::Error::InvalidData => out.extend_from_slice(b"refused invalid-data\n"),
        update::Error::NotSoaRecord => out.extend_from_slice(b"refused malformed\n"),
        update::Error::Finished => out.extend_from_slice(b"refused after-end\n"),
        update::Error::VersionsExhausted => {
            out.extend_from_slice(b"refused versions-exhausted\n")
        }
        update::Error::Memory => Err(AllocError),
    }
}
