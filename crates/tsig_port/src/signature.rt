// How a received message is signed, and what of it is digested (RFC 8945, 4.3 and 5.2).
ghost use Rattle.std.specs.Prelude.{◌≡◌, ◌++◌, ◌≤◌, ◌<◌, ℕ, List, length, Some, IfOk, IfSome, OnErr, MatchOption};
ghost use Rattle.tsig_port.specs.HmacState.{HoldsHmac};
ghost use Rattle.tsig_port.specs.Received.{IsBehindHeader};
ghost use Rattle.tsig_port.specs.Tsig.{signature_of, signature_by, tsig_of, digested_message, variables, timers, with_len};
ghost use Rattle.tsig_port.specs.Tsig.Signature.{Malformed, Unsigned, Signed};
ghost use Rattle.tsig_keys.specs.declared.algorithms.Algorithm.{Algorithm};

use dns_name::{Labelled, ParseError, ParsedName};
use dns_numbers::Rtype;
use dns_rdata::ParsedRecord;
use dns_wire::Message;
use std::convert::AsSlice;
use tsig_keys::Hmac;
use tsig_rdata::{ReadTsig, Tsig};

/// The TSIG that is the last record of a message: where it begins, its owner and its data.
#[derive(Drop)]
pub struct SignedBy<'m> {
    pub start: usize,
    pub owner: ParsedName<'m>,
    pub tsig: ReadTsig<'m>,
}

/// The TSIG among the additional records, if there is one. Refused where one of them doesn't parse, or a record follows it.
fn last_tsig<'m>(message: &Message<'m>) -> Result<Option<ParsedRecord<'m>>, ParseError>
    ensures same { IfOk result (λ o. IfSome o (λ r. r.message ≡ message.now)) }
    ensures behind { IfOk result (λ o. IfSome o (λ r. IsBehindHeader message.now (Some r.raw))) }
    ensures found { IfOk result (λ o. MatchOption o (signature_of message.now ≡ Unsigned) (λ r. signature_of message.now ≡ signature_by r.raw (tsig_of message.now r.raw))) }
    ensures none { OnErr result (signature_of message.now ≡ Malformed) }
{
    // For the proof: a message has a header.
    let _ = message.as_slice();
    let mut records = message.additional()?;
    while let Some(reading) = records.next_record() {
        let record = reading?;
        if record.rtype() == Rtype::TSIG {
            return match records.next_record() {
                None => Ok(Some(record)),
                Some(_) => Err(ParseError),
            };
        }
    }
    Ok(None)
}

/// How the message is signed: by its last record, or not at all. An error where one of its counted items can't be read, where
/// its TSIG can't be, or where another record follows the TSIG (RFC 8945, 5.2). Its TSIG is looked for in the additional section alone.
pub fn signature<'m>(message: &Message<'m>) -> Result<Option<SignedBy<'m>>, ParseError>
    ensures found { IfOk result (λ o. MatchOption o (signature_of message.now ≡ Unsigned) (λ s. signature_of message.now ≡ Signed s.start s.owner s.tsig)) }
    ensures places { IfOk result (λ o. IfSome o (λ s. (12 ≤ s.start) × (s.start < length message.now))) }
    ensures none { OnErr result (signature_of message.now ≡ Malformed) }
{
    let Some(record) = last_tsig(message)? else {
        return Ok(None);
    };
    let tsig = ReadTsig::parse(&record)?;
    Ok(Some(SignedBy {
        start: record.start(),
        owner: record.owner(),
        tsig,
    }))
}

/// Takes a received message up to where its TSIG begins, as it was before it was signed: with the original id, and ARCOUNT one
/// less (RFC 8945, 4.3.2).
pub fn update_message(context: &mut Hmac, message: &Message<'_>, start: usize, original_id: u16)
    requires header { 12 ≤ start }
    requires within { start ≤ length message.now }
    ensures { (algorithm : Algorithm) (key text : List ℕ) → HoldsHmac context.old algorithm key text → HoldsHmac context.new algorithm key (text ++ digested_message start original_id message.now) }
{
    context.update(&original_id.to_be_bytes());
    let octets = message.as_slice();
    context.update(&octets[2..10]);
    let arcount = message.counts().arcount;
    context.update(&arcount.saturating_sub(1).to_be_bytes());
    context.update(&octets[12..start]);
}

/// Takes the TSIG variables (RFC 8945, 4.3.3).
pub fn update_variables<M: Labelled, O: AsSlice<u8> + Drop, N: Labelled + Drop>(
    context: &mut Hmac,
    owner: &M,
    tsig: &Tsig<O, N>,
)
    ensures { (algorithm : Algorithm) (key text : List ℕ) → HoldsHmac context.old algorithm key text → HoldsHmac context.new algorithm key (text ++ variables (M.labels owner.now) tsig.now) }
{
    let owner = owner.to_canonical();
    context.update(owner.as_slice());
    context.update(&[0, 255, 0, 0, 0, 0]);
    let algorithm = tsig.algorithm().to_canonical();
    context.update(algorithm.as_slice());
    update_timers(context, tsig);
    context.update(&tsig.error().to_be_bytes());
    update_counted(context, tsig.other());
}

/// Takes the time signed and the fudge (RFC 8945, 5.3.1).
pub fn update_timers<O: AsSlice<u8> + Drop, N: Labelled + Drop>(
    context: &mut Hmac,
    tsig: &Tsig<O, N>,
)
    ensures { (algorithm : Algorithm) (key text : List ℕ) → HoldsHmac context.old algorithm key text → HoldsHmac context.new algorithm key (text ++ timers tsig.now) }
{
    context.update(&tsig.time_signed().into_octets());
    context.update(&tsig.fudge().to_be_bytes());
}

/// Takes octets after their number in two octets, as a prior MAC (RFC 8945, 4.3.1 and 5.3.1).
pub fn update_counted(context: &mut Hmac, octets: &[u8])
    requires { length octets.now < 65536 }
    ensures { (algorithm : Algorithm) (key text : List ℕ) → HoldsHmac context.old algorithm key text → HoldsHmac context.new algorithm key (text ++ with_len octets.now) }
{
    context.update(&(octets.len() as u16).to_be_bytes());
    context.update(octets);
}
