// One signed request and its one answer (RFC 8945, 5.1 to 5.4).
ghost use Rattle.std.specs.Prelude.{◌≡◌, ℕ, List, [], None, IfOk};
ghost use Rattle.dns_rdata.specs.Records.{record_wire};
ghost use Rattle.dns_wire.specs.Builds.{Adds};
ghost use Rattle.tsig_port.specs.ServerCheck.{verdict};
ghost use Rattle.tsig_port.specs.States.{Answers, ClientStands, Requests, ServerStands};
ghost use Rattle.tsig_port.specs.Transactions.{sequence_in};
ghost use Rattle.tsig_port.specs.Tsig.{answer_tsig, request_tsig, tsig_record};

use crate::client::ClientSequence;
use crate::errors::ValidationError;
use crate::server::{ServerError, ServerSequence};
use crate::signing::DEFAULT_FUDGE;
use dns_wire::{AdditionalBuilder, MessageBuf, PushError};
use tsig_keys::{Key, KeyRef, KeyStore};
use tsig_rdata::Time48;

/// The client's state between a signed request and its one answer.
#[derive(Drop)]
pub struct ClientTransaction<K: KeyRef> {
    sequence: ClientSequence<K>,
}

impl<K: KeyRef> ClientTransaction<K> {
    /// Signs a request, with the fudge of 300 seconds, as `ClientSequence::request` does.
    pub fn request(
        key: K,
        message: &mut AdditionalBuilder,
        now: Time48,
    ) -> Result<ClientTransaction<K>, PushError>
        ensures signed { Adds 10 (record_wire (tsig_record (K.the_key key).name (request_tsig (K.the_key key) message.old.octets now 300))) message.old result message.new }
        ensures begun { IfOk result (λ t. (t.sequence.key ≡ key) × ClientStands K.the_key t.sequence (request_tsig (K.the_key key) message.old.octets now 300).mac []) }
    {
        ClientTransaction::request_with_fudge(key, message, now, DEFAULT_FUDGE)
    }

    /// The same with a fudge in seconds.
    pub fn request_with_fudge(
        key: K,
        message: &mut AdditionalBuilder,
        now: Time48,
        fudge: u16,
    ) -> Result<ClientTransaction<K>, PushError>
        ensures signed { Adds 10 (record_wire (tsig_record (K.the_key key).name (request_tsig (K.the_key key) message.old.octets now fudge))) message.old result message.new }
        ensures begun { IfOk result (λ t. (t.sequence.key ≡ key) × ClientStands K.the_key t.sequence (request_tsig (K.the_key key) message.old.octets now fudge).mac []) }
    {
        match ClientSequence::request_with_fudge(key, message, now, fudge) {
            Ok(sequence) => Ok(ClientTransaction { sequence }),
            Err(error) => Err(error),
        }
    }

    /// Takes the answer, as `ClientSequence::answer` takes a first one. After a refusal another message can be tried, since the
    /// refused one may not come from the server (RFC 8945, 5.3).
    pub fn answer(&self, message: &mut MessageBuf, now: Time48) -> Result<(), ValidationError>
        ensures { (request_mac : List ℕ) → ClientStands K.the_key self.now.sequence request_mac [] → Answers (K.the_key self.now.sequence.key) request_mac now [] message.old result message.new }
    {
        let mut sequence = self.sequence.duplicate();
        sequence.answer(message, now)
    }

    /// The key.
    pub fn key(&self) -> &Key
        ensures { result.now ≡ K.the_key self.now.sequence.key }
    {
        self.sequence.key()
    }
}

/// The server's state between a signed request and its one answer.
#[derive(Drop)]
pub struct ServerTransaction<K: KeyRef> {
    sequence: ServerSequence<K>,
}

impl<K: KeyRef> ServerTransaction<K> {
    /// Checks a request at a moment, as `ServerSequence::request` does.
    pub fn request<S: KeyStore<Key = K>>(
        store: &S,
        message: &mut MessageBuf,
        now: Time48,
    ) -> Result<Option<ServerTransaction<K>>, ServerError<K>>
        ensures { Requests K.the_key (verdict (S.key_of store.now) now message.old) message.old now (sequence_in result) message.new }
    {
        match ServerSequence::request(store, message, now) {
            Ok(Some(sequence)) => Ok(Some(ServerTransaction { sequence })),
            Ok(None) => Ok(None),
            Err(error) => Err(error),
        }
    }

    /// Signs the answer, with the fudge of 300 seconds. `ShortBuf` or `CountOverflow` where the TSIG has no room, `Memory` without
    /// memory; the message is then as before.
    pub fn answer(self, message: &mut AdditionalBuilder, now: Time48) -> Result<(), PushError>
        ensures { (request_mac : List ℕ) → ServerStands K.the_key self.sequence request_mac [] → Adds 10 (record_wire (tsig_record (K.the_key self.sequence.key).name (answer_tsig (K.the_key self.sequence.key) request_mac None message.old.octets now 300))) message.old result message.new }
    {
        self.answer_with_fudge(message, now, DEFAULT_FUDGE)
    }

    /// The same with a fudge in seconds.
    pub fn answer_with_fudge(
        self,
        message: &mut AdditionalBuilder,
        now: Time48,
        fudge: u16,
    ) -> Result<(), PushError>
        ensures { (request_mac : List ℕ) → ServerStands K.the_key self.sequence request_mac [] → Adds 10 (record_wire (tsig_record (K.the_key self.sequence.key).name (answer_tsig (K.the_key self.sequence.key) request_mac None message.old.octets now fudge))) message.old result message.new }
    {
        let mut sequence = self.sequence;
        sequence.answer_with_fudge(message, now, fudge)
    }

    /// The key.
    pub fn key(&self) -> &Key
        ensures { result.now ≡ K.the_key self.now.sequence.key }
    {
        self.sequence.key()
    }

    /// What the key is kept by.
    pub fn wrapped_key(&self) -> &K
        ensures { result.now ≡ self.now.sequence.key }
    {
        self.sequence.wrapped_key()
    }
}

/// The request may have more than one answer after all.
impl<K: KeyRef> From<ServerTransaction<K>> for ServerSequence<K> {
    ghost from_gives = { λ t s. s ≡ t.sequence };

    fn from(transaction: ServerTransaction<K>) -> ServerSequence<K> {
        transaction.sequence
    }
}
