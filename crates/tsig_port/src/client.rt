// The client's half of a signed exchange (RFC 8945, 5.1, 5.3 and 5.4).
ghost use Rattle.std.specs.Prelude.{◌≡◌, ◌≤◌, ◌<◌, ◌++◌, ◌∷◌, [], ℕ, List, length, Some, IfOk, IfErr, OnOk, OnErr, Ok};
ghost use Rattle.dns_rdata.specs.Records.{record_wire};
ghost use Rattle.dns_wire.specs.Builds.{Adds};
ghost use Rattle.tsig_port.specs.Checked.{server_time as server_time_of, signed_fault as signed_fault_of};
ghost use Rattle.tsig_port.specs.HmacState.{HoldsHmac};
ghost use Rattle.tsig_port.specs.Signers.{behind_message};
ghost use Rattle.tsig_port.specs.States.{Answers, ClientStands, bare_fault};
ghost use Rattle.tsig_port.specs.Tsig.{request_tsig, tsig_record, signature_of as signature_in_octets, digested_message};
ghost use Rattle.tsig_port.specs.Tsig.Signature.{Signed};
ghost use Rattle.tsig_keys.specs.declared.algorithms.Algorithm.{Algorithm};

use crate::errors::ValidationError;
use crate::signature::{SignedBy, signature, update_message, update_timers, update_variables};
use crate::signing::{DEFAULT_FUDGE, chained, record_of, sign_first};
use dns_name::ToName;
use dns_numbers::{Rcode, TsigRcode};
use dns_wire::{AdditionalBuilder, Message, MessageBuf, PushError};
use tsig_keys::{Hmac, Key, KeyRef};
use tsig_rdata::{ReadTsig, Time48};

/// The client's state between the answers to a signed request: the MAC of the next answer is under way.
#[derive(Drop)]
pub struct ClientSequence<K: KeyRef> {
    key: K,
    context: Hmac,
    first: bool,
}

impl<K: KeyRef> ClientSequence<K> {
    /// Signs a request, with the fudge of 300 seconds. `ShortBuf` or `CountOverflow` where the TSIG has no room, `Memory` without
    /// memory; the message is then as before.
    pub fn request(
        key: K,
        message: &mut AdditionalBuilder,
        now: Time48,
    ) -> Result<ClientSequence<K>, PushError>
        // The message gains the key's TSIG, where it fits.
        ensures signed { Adds 10 (record_wire (tsig_record (K.the_key key).name (request_tsig (K.the_key key) message.old.octets now 300))) message.old result message.new }
        // The state stands for no answer yet.
        ensures begun { IfOk result (λ s. (s.key ≡ key) × ClientStands K.the_key s (request_tsig (K.the_key key) message.old.octets now 300).mac []) }
    {
        ClientSequence::request_with_fudge(key, message, now, DEFAULT_FUDGE)
    }

    /// The same with a fudge in seconds.
    pub fn request_with_fudge(
        key: K,
        message: &mut AdditionalBuilder,
        now: Time48,
        fudge: u16,
    ) -> Result<ClientSequence<K>, PushError>
        ensures signed { Adds 10 (record_wire (tsig_record (K.the_key key).name (request_tsig (K.the_key key) message.old.octets now fudge))) message.old result message.new }
        ensures begun { IfOk result (λ s. (s.key ≡ key) × ClientStands K.the_key s (request_tsig (K.the_key key) message.old.octets now fudge).mac []) }
    {
        let signer = key.key_ref();
        let tsig = sign_first(signer, signer.hmac(), message, now, fudge);
        let context = chained(signer, tsig.mac_slice());
        message.push(&record_of(signer, tsig))?;
        Ok(ClientSequence {
            key,
            context,
            first: true,
        })
    }

    /// Takes the next answer: its TSIG is taken off, and its id is set to the original one. Each answer has to be signed, where
    /// RFC 8945, 5.3.1, lets up to 99 pass without a TSIG between signed ones.
    /// The first test that an answer fails is the refusal, and leaves state and message as before: `FormErr` where it doesn't parse
    /// or its TSIG isn't the last record; `ServerUnsigned` for a first answer without TSIG, `TooManyUnsigned` for a later one;
    /// `ServerBadKey` and `ServerBadSig` as the server says; `BadKey` where the TSIG is of another key; `BadTrunc`
    /// where its MAC is too short; `BadSig` where the MAC is another; `ServerBadTime` as the server says; `BadTime` where the moment
    /// isn't within the fudge. In this order: the tests are those of RFC 8945, 5.3.1 and 5.4, where truncation is the last one.
    pub fn answer(&mut self, message: &mut MessageBuf, now: Time48) -> Result<(), ValidationError>
        // It is Ok exactly where the answer passes each test.
        ensures checked { (request_mac : List ℕ) (taken : List (List ℕ)) → ClientStands K.the_key self.old request_mac taken → Answers (K.the_key self.old.key) request_mac now taken message.old result message.new }
        // The state stands for that answer too.
        ensures taken { OnOk result ((self.new.key ≡ self.old.key) × ((request_mac : List ℕ) (taken : List (List ℕ)) → ClientStands K.the_key self.old request_mac taken → ClientStands K.the_key self.new request_mac (taken ++ message.old ∷ []))) }
        ensures kept { OnErr result (self.new ≡ self.old) }
    {
        let received = message.as_message();
        let signed = self.signature_of(&received)?;
        let key = self.key.key_ref();
        let context = answer_context(self.context.duplicate(), self.first, &received, &signed);
        if let Some(fault) = signed_fault(key, context, received.header().rcode, &signed, now) {
            return Err(fault);
        }
        let context = chained(key, signed.tsig.mac_slice());
        let original_id = signed.tsig.original_id();
        self.context = context;
        self.first = false;
        message.set_id(original_id);
        message.remove_last_additional();
        Ok(())
    }

    /// The TSIG of an answer, or the fault of one that lacks it.
    fn signature_of<'m>(&self, received: &Message<'m>) -> Result<SignedBy<'m>, ValidationError>
        ensures found { IfOk result (λ s. signature_in_octets received.now ≡ Signed s.start s.owner s.tsig) }
        ensures fault { IfErr result (λ e. bare_fault self.now.first (signature_in_octets received.now) ≡ Some e) }
        ensures places { IfOk result (λ s. (12 ≤ s.start) × (s.start < length received.now)) }
    {
        match signature(received) {
            Err(_) => Err(ValidationError::FormErr),
            Ok(Some(signed)) => Ok(signed),
            Ok(None) if self.first => Err(ValidationError::ServerUnsigned),
            Ok(None) => Err(ValidationError::TooManyUnsigned),
        }
    }

    /// The same state again, with a copy of the key.
    pub(crate) fn duplicate(&self) -> ClientSequence<Key>
        ensures key { result.key ≡ K.the_key self.now.key }
        ensures stands { (request_mac : List ℕ) (taken : List (List ℕ)) → ClientStands K.the_key self.now request_mac taken → ClientStands (λ k. k) result request_mac taken }
    {
        ClientSequence {
            key: self.key.key_ref().duplicate(),
            context: self.context.duplicate(),
            first: self.first,
        }
    }

    /// The end of the answers, of which the last must be signed (RFC 8945, 5.3.1). It is always Ok, since `answer` takes none that isn't
    /// signed; it stands here so that callers written for the crate `domain`, in which it can be refused, need no change.
    pub fn done(self) -> Result<(), ValidationError>
        ensures { result ≡ Ok tt }
    {
        Ok(())
    }

    /// How many unsigned answers came since the last signed one. It is always 0, since `answer` takes none that isn't signed; it stays
    /// for callers who asked for it while `answer` still took up to 99 in a row.
    pub fn unsigned(&self) -> u64
        ensures { result ≡ 0 }
    {
        0
    }

    /// The key.
    pub fn key(&self) -> &Key
        ensures { result.now ≡ K.the_key self.now.key }
    {
        self.key.key_ref()
    }
}

/// The MAC of an answer under way, all of it taken: after what was digested before, the message and its TSIG variables, or in a
/// later answer the timers (RFC 8945, 5.3 and 5.3.1).
fn answer_context(
    mut context: Hmac,
    first: bool,
    received: &Message<'_>,
    signed: &SignedBy<'_>,
) -> Hmac
    requires header { 12 ≤ signed.now.start }
    requires within { signed.now.start ≤ length received.now }
    ensures { (algorithm : Algorithm) (key before : List ℕ) → HoldsHmac context algorithm key before → HoldsHmac result algorithm key (before ++ digested_message signed.now.start signed.now.tsig.original_id received.now ++ behind_message first signed.now.owner signed.now.tsig) }
{
    update_message(
        &mut context,
        received,
        signed.start,
        signed.tsig.original_id(),
    );
    if first {
        update_variables(&mut context, &signed.owner, &signed.tsig);
    } else {
        update_timers(&mut context, &signed.tsig);
    }
    context
}

/// The first test that a signed answer fails, where `context` has taken what is digested for it: the tests of RFC 8945, 5.4, in this
/// project's order.
fn signed_fault(
    key: &Key,
    context: Hmac,
    rcode: Rcode,
    signed: &SignedBy<'_>,
    now: Time48,
) -> Option<ValidationError>
    ensures { (input : List ℕ) → HoldsHmac context key.now.algorithm key.now.secret input → result ≡ signed_fault_of key.now now rcode input signed.now.owner signed.now.tsig }
{
    let tsig = &signed.tsig;
    let refused = rcode == Rcode::NOTAUTH;
    if refused && tsig.error() == TsigRcode::BADKEY.to_int() {
        return Some(ValidationError::ServerBadKey);
    }
    if refused && tsig.error() == TsigRcode::BADSIG.to_int() {
        return Some(ValidationError::ServerBadSig);
    }
    if !signed.owner.name_eq(key.name()) || !tsig.algorithm().name_eq(&key.algorithm().to_name()) {
        return Some(ValidationError::BadKey);
    }
    if tsig.mac_slice().len() < key.min_mac_len() {
        return Some(ValidationError::BadTrunc);
    }
    if !context.finish().begins_with(tsig.mac_slice()) {
        return Some(ValidationError::BadSig);
    }
    if refused && tsig.error() == TsigRcode::BADTIME.to_int() {
        return Some(server_time(tsig));
    }
    if tsig.is_valid_at(now) {
        None
    } else {
        Some(ValidationError::BadTime)
    }
}

/// What a BADTIME answer tells: the time signed and the server's time, which are six other octets (RFC 8945, 5.4.3).
fn server_time(tsig: &ReadTsig<'_>) -> ValidationError
    ensures { result ≡ server_time_of tsig.now }
{
    match Time48::from_octets(tsig.other()) {
        Some(server) => ValidationError::ServerBadTime {
            client: tsig.time_signed(),
            server,
        },
        None => ValidationError::FormErr,
    }
}
