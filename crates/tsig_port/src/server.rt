// The server's half of a signed exchange (RFC 8945, 5.2 and 5.3).
ghost use Rattle.std.specs.Prelude.{◌≡◌, ◌≤◌, ◌++◌, ◌∷◌, [], ℕ, List, Some, None, length, option_map, OnOk, OnErr};
ghost use Rattle.std.specs.List.{last_or};
ghost use Rattle.dns_rdata.specs.Records.{record_wire};
ghost use Rattle.dns_wire.specs.Builds.{Adds};
ghost use Rattle.tsig_port.specs.ServerCheck.{Verdict, key_for as key_for_of, verdict};
ghost use Rattle.tsig_port.specs.States.{Requests, ServerStands, RefusalOf, error_of, error_found, mac_fault as mac_fault_of};
ghost use Rattle.tsig_port.specs.Tsig.{algorithm_of, answer_tsig, digested_message, request_input, tsig_record};

use crate::signature::{SignedBy, signature, update_message, update_variables};
use crate::signing::{DEFAULT_FUDGE, chained, record_of, sign_first, sign_later};
use dns_name::Labelled;
use dns_numbers::TsigRcode;
use dns_wire::{AdditionalBuilder, Message, MessageBuf, PushError};
use tsig_keys::{Algorithm, Hmac, Key, KeyRef, KeyStore};
use tsig_rdata::{SigningTsig, Time48};

/// The server's state between the answers to a signed request: the MAC of the next answer is under way.
#[derive(Drop)]
pub struct ServerSequence<K: KeyRef> {
    key: K,
    context: Hmac,
    first: bool,
}

/// Why a request isn't accepted, with what its reply needs.
#[derive(Drop)]
pub enum ServerError<K: KeyRef> {
    /// It doesn't parse, or its TSIG isn't readable or isn't the last record.
    Formerr,
    /// This TSIG error, whose reply is unsigned: BADKEY, BADTRUNC or BADSIG.
    Unsigned(TsigRcode),
    /// BADTIME, with what its signed reply is made of: key and MAC under way, when the request was signed and its fudge, and the
    /// moment of the check.
    BadTime(K, Hmac, Time48, u16, Time48),
}

impl<K: KeyRef> ServerError<K> {
    /// The TSIG error (RFC 8945, 3), 1 for FORMERR.
    pub fn error(&self) -> TsigRcode
        ensures error { result ≡ error_of self.now }
        // It is the error that the server found.
        ensures found { (found : Verdict) (request : List ℕ) (now : ℕ) → RefusalOf K.the_key found request now self.now → error_found found ≡ Some result }
    {
        match self {
            ServerError::Formerr => TsigRcode::from_int(1),
            ServerError::Unsigned(error) => *error,
            ServerError::BadTime(_, _, _, _, _) => TsigRcode::BADTIME,
        }
    }
}

impl<K: KeyRef> ServerSequence<K> {
    /// Checks a request at a moment. `Ok(None)` says that it has no TSIG, and leaves it alone. Where it is accepted, the TSIG is taken off
    /// and the id is set to the original one. A refusal leaves it alone too: FORMERR where it doesn't parse or its TSIG isn't the last record, BADKEY where
    /// the store has no key of its owner and algorithm, BADTRUNC where its MAC is too short, BADSIG where the MAC is another,
    /// BADTIME where the moment isn't within the fudge. In this order: the tests are those of RFC 8945, 5.2, where truncation is the last one.
    pub fn request<S: KeyStore<Key = K>>(
        store: &S,
        message: &mut MessageBuf,
        now: Time48,
    ) -> Result<Option<ServerSequence<K>>, ServerError<K>>
        ensures { Requests K.the_key (verdict (S.key_of store.now) now message.old) message.old now result message.new }
    {
        let received = message.as_message();
        let Ok(found) = signature(&received) else {
            return Err(ServerError::Formerr);
        };
        let Some(signed) = found else {
            return Ok(None);
        };
        let Some(key) = key_for(store, &signed) else {
            return Err(ServerError::Unsigned(TsigRcode::BADKEY));
        };
        if let Some(error) = mac_fault(key.key_ref(), &received, &signed) {
            return Err(ServerError::Unsigned(error));
        }
        let context = chained(key.key_ref(), signed.tsig.mac_slice());
        if !signed.tsig.is_valid_at(now) {
            let time_signed = signed.tsig.time_signed();
            return Err(ServerError::BadTime(key, context, time_signed, signed.tsig.fudge(), now));
        }
        let original_id = signed.tsig.original_id();
        message.set_id(original_id);
        message.remove_last_additional();
        Ok(Some(ServerSequence {
            key,
            context,
            first: true,
        }))
    }

    /// Signs the next answer, with the fudge of 300 seconds. `ShortBuf` or `CountOverflow` where the TSIG has no room, `Memory`
    /// without memory; state and message are then as before.
    pub fn answer(&mut self, message: &mut AdditionalBuilder, now: Time48) -> Result<(), PushError>
        // The message gains the TSIG, where it fits.
        ensures signed { (request_mac : List ℕ) (macs : List (List ℕ)) → ServerStands K.the_key self.old request_mac macs → Adds 10 (record_wire (tsig_record (K.the_key self.old.key).name (answer_tsig (K.the_key self.old.key) request_mac (last_or None macs) message.old.octets now 300))) message.old result message.new }
        // The state stands for that answer too.
        ensures gone { OnOk result ((self.new.key ≡ self.old.key) × ((request_mac : List ℕ) (macs : List (List ℕ)) → ServerStands K.the_key self.old request_mac macs → ServerStands K.the_key self.new request_mac (macs ++ (answer_tsig (K.the_key self.old.key) request_mac (last_or None macs) message.old.octets now 300).mac ∷ []))) }
        ensures kept { OnErr result (self.new ≡ self.old) }
    {
        self.answer_with_fudge(message, now, DEFAULT_FUDGE)
    }

    /// The same with a fudge in seconds.
    pub fn answer_with_fudge(
        &mut self,
        message: &mut AdditionalBuilder,
        now: Time48,
        fudge: u16,
    ) -> Result<(), PushError>
        // The message gains the TSIG, where it fits.
        ensures signed { (request_mac : List ℕ) (macs : List (List ℕ)) → ServerStands K.the_key self.old request_mac macs → Adds 10 (record_wire (tsig_record (K.the_key self.old.key).name (answer_tsig (K.the_key self.old.key) request_mac (last_or None macs) message.old.octets now fudge))) message.old result message.new }
        // The state stands for that answer too.
        ensures gone { OnOk result ((self.new.key ≡ self.old.key) × ((request_mac : List ℕ) (macs : List (List ℕ)) → ServerStands K.the_key self.old request_mac macs → ServerStands K.the_key self.new request_mac (macs ++ (answer_tsig (K.the_key self.old.key) request_mac (last_or None macs) message.old.octets now fudge).mac ∷ []))) }
        ensures kept { OnErr result (self.new ≡ self.old) }
    {
        let tsig = self.next_tsig(message, now, fudge);
        let key = self.key.key_ref();
        let context = chained(key, tsig.mac_slice());
        message.push(&record_of(key, tsig))?;
        self.context = context;
        self.first = false;
        Ok(())
    }

    /// The TSIG that signs the next answer: with the TSIG variables in a first one, with the timers in a later one (RFC 8945, 5.3
    /// and 5.3.1).
    fn next_tsig(&self, message: &AdditionalBuilder, now: Time48, fudge: u16) -> SigningTsig
        ensures { (request_mac : List ℕ) (macs : List (List ℕ)) → ServerStands K.the_key self.now request_mac macs → result ≡ answer_tsig (K.the_key self.now.key) request_mac (last_or None macs) message.now.octets now fudge }
    {
        let key = self.key.key_ref();
        let before = self.context.duplicate();
        if self.first {
            sign_first(key, before, message, now, fudge)
        } else {
            sign_later(key, before, message, now, fudge)
        }
    }

    /// The key.
    pub fn key(&self) -> &Key
        ensures { result.now ≡ K.the_key self.now.key }
    {
        self.key.key_ref()
    }

    /// What the key is kept by.
    pub fn wrapped_key(&self) -> &K
        ensures { result.now ≡ self.now.key }
    {
        &self.key
    }
}

/// The key of a request's owner and algorithm (RFC 8945, 5.2.1).
fn key_for<S: KeyStore>(store: &S, signed: &SignedBy<'_>) -> Option<S::Key>
    ensures { option_map S.Key.the_key result ≡ key_for_of (S.key_of store.now) signed.now.owner (algorithm_of signed.now.tsig.algorithm) }
{
    let algorithm = Algorithm::from_name(signed.tsig.algorithm())?;
    store.get_key(&signed.owner.to_key_name(), algorithm)
}

/// What is wrong with a request's MAC: its length, or its octets (RFC 8945, 5.2.4 and 5.2.2).
fn mac_fault(key: &Key, received: &Message<'_>, signed: &SignedBy<'_>) -> Option<TsigRcode>
    requires header { 12 ≤ signed.now.start }
    requires within { signed.now.start ≤ length received.now }
    ensures { result ≡ mac_fault_of key.now (request_input (digested_message signed.now.start signed.now.tsig.original_id received.now) signed.now.owner signed.now.tsig) signed.now.tsig }
{
    if signed.tsig.mac_slice().len() < key.min_mac_len() {
        return Some(TsigRcode::BADTRUNC);
    }
    let mut context = key.hmac();
    update_message(
        &mut context,
        received,
        signed.start,
        signed.tsig.original_id(),
    );
    update_variables(&mut context, &signed.owner, &signed.tsig);
    if context.finish().begins_with(signed.tsig.mac_slice()) {
        return None;
    }
    Some(TsigRcode::BADSIG)
}
