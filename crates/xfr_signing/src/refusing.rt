// The reply to a request whose signature was refused.
ghost use Rattle.std.specs.Prelude.{◌≡◌, ℕ, ◌+◌, ◌≤◌, List, Err};
ghost use Rattle.tsig_port.specs.ServerCheck.{Verdict, reply_to};
ghost use Rattle.tsig_port.specs.States.{RefusalOf};
ghost use Rattle.tsig_port.specs.Tsig.{compose_len};
ghost use Rattle.xfr_services.specs.Items.{MakesBegun};
ghost use Rattle.xfr_services.specs.LongReplies.{longest_tsig, HasLongQuestions};
ghost use Rattle.xfr_services.specs.Replying.{built};
ghost use Rattle.xfr_services.specs.declared.services.ServiceError.TheVariants.{InternalError};
ghost use Rattle.xfr_signing.specs.Failing.{HasShortKey};

use dns_name::Labelled;
use dns_wire::{AdditionalBuilder, MessageBuf, MessageBuilder};
use std::alloc::Global;
use tsig_port::{Key, KeyRef, ServerError};
use xfr_services::ServiceError;

/// The reply to a request that was refused for this (RFC 8945, 5.2; BADTRUNC unsigned).
pub fn refusal_reply<K: KeyRef>(
    alloc: Global,
    refusal: ServerError<K>,
    request: &MessageBuf,
) -> Result<AdditionalBuilder, ServiceError>
    ensures reply { (found : Verdict) (now : ℕ) → RefusalOf K.the_key found request.now now refusal
        → MakesBegun (built (reply_to found request.now request.now now)) result }
    ensures cause { (found : Verdict) (now : ℕ) → RefusalOf K.the_key found request.now now refusal
        → result ≡ Err InternalError → HasLongQuestions request.now }
{
    // For the proof: the reply's TSIG is short.
    tell_refusing_key(&refusal);
    build_refusal(alloc, refusal, request)
}

/// The same, but for the cause of an error.
fn build_refusal<K: KeyRef>(
    alloc: Global,
    refusal: ServerError<K>,
    request: &MessageBuf,
) -> Result<AdditionalBuilder, ServiceError>
    ensures { (found : Verdict) (now : ℕ) → RefusalOf K.the_key found request.now now refusal
        → MakesBegun (built (reply_to found request.now request.now now)) result }
{
    let builder = MessageBuilder::new(alloc)?;
    Ok(refusal.build_message(&request.as_message(), builder)?)
}

/// A key's TSIG, and the server's time in it, have no more octets than a TSIG can: the name has 255 at most, a MAC 64.
pub(crate) fn tell_short(key: &Key)
    ensures { compose_len key.now + 6 ≤ longest_tsig }
{
    let _name = key.name().compose_len();
    let _mac = key.signing_len();
}

/// The same of the key by which a request is refused for its time.
fn tell_refusing_key<K: KeyRef>(refusal: &ServerError<K>)
    ensures { (found : Verdict) (request : List ℕ) (now : ℕ) → RefusalOf K.the_key found request now refusal.now → HasShortKey found }
{
    match refusal {
        ServerError::Formerr => (),
        ServerError::Unsigned(_) => (),
        ServerError::BadTime(key, _, _, _, _) => tell_short(key.key_ref()),
    }
}
