// The service that checks the signatures of requests and signs the replies (RFC 8945, 5.2 and 5.3).
ghost use Rattle.std.specs.Prelude.{◌≡◌, ℕ, List, [], ◌+◌, min, ◌++◌, take, drop, Option, Some};
ghost use Rattle.tsig_port.specs.Tsig.{mac_in};
ghost use Rattle.tsig_port.specs.Checked.{taken_message};
ghost use Rattle.tsig_port.specs.States.{ServerStands};
ghost use Rattle.xfr_services.specs.Items.{Makes, Calls};
ghost use Rattle.xfr_services.specs.LongReplies.{FailsOnlyWhereLong};
ghost use Rattle.xfr_signing.specs.SignedServing.{SendsSigned, as_received};
ghost use Rattle.xfr_signing.specs.SignedStreams.{signed_items_left, SignedLeft};
ghost use Rattle.xfr_signing.specs.Signing as signed;
ghost use Rattle.xfr_signing.specs.declared.signing.Signing.{Signing as SigningOf};

use crate::refusing::{refusal_reply, tell_short};
use dns_wire::{AdditionalBuilder, MessageBuf, PushError};
use std::alloc::Global;
use std::marker::Model;
use std::sync::Wait;
use tsig_port::{KeyRef, KeyStore, ServerSequence, Time48};
use xfr_services::{
    CallResult, ReplyStream, Request, Service, ServiceError, ServiceFeedback, replies,
};

/// Checks the signatures of requests, hands them on with their key, and signs the replies with it. A refused request gets the one
/// reply that tells its TSIG error (RFC 8945, 5.2; BADTRUNC unsigned), and `InternalError` where that would pass 65,535 octets.
/// Contracts see the next service and the keys.
#[derive(Drop)]
pub struct TsigMiddlewareSvc<S, KS> {
    next: S,
    keys: KS,
}

impl<S, KS> Model for TsigMiddlewareSvc<S, KS> {
    ghost Value = { S × KS };

    ghost view = { λ s. (s.next, s.keys) };
}

impl<S, KS> TsigMiddlewareSvc<S, KS> {
    /// The service that knows these keys and has requests answered by the next one.
    pub fn new(next: S, keys: KS) -> TsigMiddlewareSvc<S, KS>
        ensures { result ≡ (next, keys) }
    {
        TsigMiddlewareSvc { next, keys }
    }

    /// The next service and the keys.
    pub fn into_parts(self) -> (S, KS)
        ensures next { result.0 ≡ self.0 }
        ensures keys { result.1 ≡ self.1 }
    {
        let TsigMiddlewareSvc { next, keys } = self;
        (next, keys)
    }
}

/// Which replies are signed.
#[derive(Clone, Copy, Debug, PartialEq, Eq)]
enum Signing {
    /// The next one alone.
    First,
    /// The next one and all later ones, in sequence.
    All,
    /// No further one.
    Done,
}

impl Signing {
    /// What is signed after a reply.
    fn behind(self) -> Signing
        ensures { result ≡ signed.behind self }
    {
        match self {
            Signing::First => Signing::Done,
            Signing::All => Signing::All,
            Signing::Done => Signing::Done,
        }
    }

    /// Whether the next reply is signed.
    fn is_due(self) -> bool
        ensures { result ≡ signed.is_due self }
    {
        !matches!(self, Signing::Done)
    }
}

/// What it takes to sign the replies to one request.
#[derive(Drop)]
pub struct PostprocessingState<K: KeyRef> {
    alloc: Global,
    sequence: ServerSequence<K>,
    received: MessageBuf,
    now: Time48,
    signing: Signing,
}

/// The replies of the service: a refusal, or those of the next service, as they are or signed.
#[derive(Drop)]
pub enum TsigStream<S: ReplyStream, K: KeyRef> {
    Refused(Option<AdditionalBuilder>),
    Unsigned(S),
    Signed(S, PostprocessingState<K>),
}

impl<S: ReplyStream, K: KeyRef> ReplyStream for TsigStream<S, K> {
    ghost use Rattle.std.specs.Prelude.{◌<◌, OnSome};
    ghost use Rattle.xfr_services.specs.Items.{Sending, NextOf};

    ghost remaining = { signed_items_left S.remaining };

    ghost LeftOf = { SignedLeft S.LeftOf K.the_key };

    fn next_item(&mut self) -> Option<Result<CallResult, ServiceError>>
        ensures progress { OnSome result (signed_items_left S.remaining self.new < signed_items_left S.remaining self.old) }
        ensures item { (items : List Sending) → SignedLeft S.LeftOf K.the_key self.old items
            → NextOf (SignedLeft S.LeftOf K.the_key self.new) items result }
    {
        match self {
            TsigStream::Refused(reply) => Some(Ok(CallResult::new(reply.take()?))),
            TsigStream::Unsigned(replies) => replies.next_item(),
            TsigStream::Signed(replies, state) => match replies.next_item()? {
                Ok(item) => match state.sign_item(item) {
                    Ok(signed) => Some(Ok(signed)),
                    Err(ServiceError::InternalError) => Some(Err(ServiceError::InternalError)),
                    Err(ServiceError::Memory) => {
                        *self = TsigStream::Refused(None);
                        Some(Err(ServiceError::Memory))
                    }
                },
                Err(error) => Some(Err(error)),
            },
        }
    }
}

impl<K: KeyRef> PostprocessingState<K> {
    /// An item with its reply signed, where that is due.
    fn sign_item(&mut self, item: CallResult) -> Result<CallResult, ServiceError>
        ensures { (s : signed.Signer) (signing : SigningOf) (prior : Option (List ℕ)) → signed.Signs K.the_key self.old s signing prior
            → signed.StepsTo K.the_key s (signed.begun signing item.feedback) prior (signed.step_item s signing prior item)
            result self.new }
    {
        self.begin(item.feedback);
        let CallResult { response, feedback } = item;
        let Some(reply) = response else {
            return Ok(CallResult {
                response: None,
                feedback,
            });
        };
        match self.sign_where_due(reply) {
            Ok(reply) => Ok(CallResult {
                response: Some(reply),
                feedback,
            }),
            Err(error) => Err(error),
        }
    }

    /// A reply with its signature, where one is due.
    fn sign_where_due(
        &mut self,
        reply: AdditionalBuilder,
    ) -> Result<AdditionalBuilder, ServiceError>
        ensures { (s : signed.Signer) (signing : SigningOf) (prior : Option (List ℕ)) → signed.Signs K.the_key self.old s signing prior
            → signed.SignsWhere (signed.is_due signing) K.the_key s signing prior reply result self.new }
    {
        if self.signing.is_due() {
            self.sign(reply)
        } else {
            Ok(reply)
        }
    }

    /// From the begin of a transaction on all replies are signed.
    fn begin(&mut self, feedback: Option<ServiceFeedback>)
        ensures { (s : signed.Signer) (signing : SigningOf) (prior : Option (List ℕ)) → signed.Signs K.the_key self.old s signing prior
            → signed.Signs K.the_key self.new s (signed.begun signing feedback) prior }
    {
        match (self.signing, feedback) {
            (Signing::First, Some(ServiceFeedback::BeginTransaction)) => {
                self.signing = Signing::All;
            }
            _ => (),
        }
    }

    /// A reply with its signature; outside a transaction no further one is signed. Without memory the next one is signed in its place.
    fn sign(&mut self, reply: AdditionalBuilder) -> Result<AdditionalBuilder, ServiceError>
        ensures { (s : signed.Signer) (signing : SigningOf) (prior : Option (List ℕ)) → signed.Signs K.the_key self.old s signing prior
            → signed.SignsReply K.the_key s signing (signed.behind signing) prior (signed.to_sign s prior reply.octets)
            result self.new }
    {
        let after = self.signing.behind();
        match self.sign_or_replace(reply) {
            Ok(reply) => {
                self.signing = after;
                Ok(reply)
            }
            Err(ServiceError::InternalError) => {
                self.signing = after;
                Err(ServiceError::InternalError)
            }
            Err(ServiceError::Memory) => Err(ServiceError::Memory),
        }
    }

    /// A reply with its signature; where there is no room for that, a reply that says so (RFC 8945, 5.3).
    fn sign_or_replace(
        &mut self,
        reply: AdditionalBuilder,
    ) -> Result<AdditionalBuilder, ServiceError>
        ensures { (s : signed.Signer) (signing : SigningOf) (prior : Option (List ℕ)) → signed.Signs K.the_key self.old s signing prior
            → signed.SignsReply K.the_key s signing signing prior (signed.to_sign s prior reply.octets) result self.new }
    {
        let mut reply = reply;
        reply.clear_push_limit();
        match self.put_tsig(&mut reply) {
            Ok(()) => Ok(reply),
            Err(PushError::Memory) => Err(ServiceError::Memory),
            Err(PushError::ShortBuf) => self.sign_short(),
            Err(PushError::CountOverflow) => self.sign_short(),
        }
    }

    /// The truncated reply with its signature.
    fn sign_short(&mut self) -> Result<AdditionalBuilder, ServiceError>
        ensures { (s : signed.Signer) (signing : SigningOf) (prior : Option (List ℕ)) → signed.Signs K.the_key self.old s signing prior
            → signed.SignsReply K.the_key s signing signing prior (signed.short_to_sign s prior) result self.new }
    {
        let mut short = replies::truncated_reply(self.alloc, &self.received)?;
        match self.put_tsig(&mut short) {
            Ok(()) => Ok(short),
            Err(error) => Err(ServiceError::from(error)),
        }
    }

    /// The next TSIG on a message.
    fn put_tsig(&mut self, message: &mut AdditionalBuilder) -> Result<(), PushError>
        ensures { (s : signed.Signer) (signing : SigningOf) (prior : Option (List ℕ)) → signed.Signs K.the_key self.old s signing prior → message.old.limit ≡ 65535
            → signed.PutsTsig K.the_key s signing prior message.old.octets result message.new self.new }
    {
        self.sequence.answer(message, self.now)
    }
}

impl<S, KS> Service<()> for TsigMiddlewareSvc<S, KS>
where
    S: Service<Option<KS::Key>>,
    KS: KeyStore,
{
    ghost use Rattle.xfr_signing.specs.SignedServing.{SendsChecked};

    type Stream = TsigStream<S::Stream, KS::Key>;

    ghost Sends = { λ s. SendsChecked KS.Key.the_key (KS.key_of s.1) (S.Sends s.0) };

    #[tactic(auto, using(crate::proofs::Received::came))]
    fn call<R: Wait>(
        &self,
        rt: &R,
        alloc: Global,
        request: Request<()>,
    ) -> Result<TsigStream<S::Stream, KS::Key>, ServiceError>
        ensures calls { Calls (SendsChecked KS.Key.the_key (KS.key_of self.now.1) (S.Sends self.now.0) request)
            (SignedLeft S.Stream.LeftOf KS.Key.the_key) result }
        ensures failing { Calls (FailsOnlyWhereLong request.message) (SignedLeft S.Stream.LeftOf KS.Key.the_key) result }
    {
        let mut request = request;
        let header = header_octets(&request.message);
        match ServerSequence::request(&self.keys, &mut request.message, request.at) {
            Ok(None) => {
                let request = request.with_new_metadata(None);
                Ok(TsigStream::Unsigned(self.next.call(rt, alloc, request)?))
            }
            Ok(Some(sequence)) => {
                let received = as_it_came(alloc, &header, &request.message)?;
                self.call_signed(rt, alloc, request, received, sequence)
            }
            Err(refusal) => {
                let reply = refusal_reply(alloc, refusal, &request.message)?;
                Ok(TsigStream::Refused(Some(reply)))
            }
        }
    }
}

impl<S, KS> TsigMiddlewareSvc<S, KS>
where
    S: Service<Option<KS::Key>>,
    KS: KeyStore,
{
    /// The replies to a request whose signature was accepted.
    fn call_signed<R: Wait>(
        &self,
        rt: &R,
        alloc: Global,
        request: Request<()>,
        received: MessageBuf,
        sequence: ServerSequence<KS::Key>,
    ) -> Result<TsigStream<S::Stream, KS::Key>, ServiceError>
        requires stands { ServerStands KS.Key.the_key sequence (mac_in received) [] }
        requires taken { request.message ≡ taken_message received }
        ensures calls { Calls (SendsSigned KS.Key.the_key (KS.key_of self.now.1) (S.Sends self.now.0) (as_received request received) (KS.Key.the_key sequence.key))
            (SignedLeft S.Stream.LeftOf KS.Key.the_key) result }
        ensures failing { Calls (FailsOnlyWhereLong received) (SignedLeft S.Stream.LeftOf KS.Key.the_key) result }
    {
        let now = request.at;
        let key = sequence.key();
        // For the proof: a TSIG of the key is no longer than one can be, and what was received has a header.
        tell_short(key);
        let _len = received.as_slice().len();
        let known = self.keys.get_key(key.name(), key.algorithm());
        let reserved = key.compose_len();
        let request = handed_on(request, known, reserved);
        let state = PostprocessingState {
            alloc,
            sequence,
            received,
            now,
            signing: Signing::First,
        };
        Ok(TsigStream::Signed(self.next.call(rt, alloc, request)?, state))
    }
}

/// A request with other metadata, and with so many octets more reserved.
fn handed_on<T>(request: Request<()>, metadata: T, reserved: u16) -> Request<T>
    ensures message { result.message ≡ request.message }
    ensures transport { result.transport ≡ request.transport }
    ensures now { result.at ≡ request.at }
    ensures metadata { result.metadata ≡ metadata }
    ensures reserved { result.reserved ≡ min (request.reserved + reserved) 65535 }
{
    let mut request = request.with_new_metadata(metadata);
    request.reserve_bytes(reserved);
    request
}

/// A message's id, flags and counts (RFC 1035, 4.1.1).
fn header_octets(message: &MessageBuf) -> [u8; 12]
    ensures { result ≡ take 12 message.now }
{
    let mut octets = [0; 12];
    octets.copy_from_slice(&message.as_slice()[..12]);
    octets
}

/// An accepted request as it was received, by its header then: all behind that is as it was (RFC 8945, 4.3.2).
fn as_it_came(
    alloc: Global,
    header: &[u8; 12],
    taken: &MessageBuf,
) -> Result<MessageBuf, ServiceError>
    ensures { Makes (Some (header.now ++ drop 12 taken.now)) result }
{
    let mut octets = Vec::with_capacity(alloc, taken.as_slice().len())?;
    octets.extend_from_slice(header)?;
    octets.extend_from_slice(&taken.as_slice()[12..])?;
    match MessageBuf::from_octets(octets) {
        Ok(received) => Ok(received),
        Err(_) => Err(ServiceError::InternalError),
    }
}
