// Laws of what a primary sends, each the contract of a function with an empty body.
ghost use Rattle.std.specs.Prelude.{◌≡◌, ℕ, true, List, Option, Ok};
ghost use Rattle.tsig_port.specs.Tsig.{TsigKey};
ghost use Rattle.zone_model.specs.Offer.{Offer};
ghost use Rattle.xfr_server.specs.Items.{Sending};
ghost use Rattle.xfr_server.specs.SentTexts.{TextIsChosen};
ghost use Rattle.xfr_server.specs.GrantedTransfers.{SendsWhole, TextsBegin, WholeIsTaken, TransferIsMessage};
ghost use Rattle.xfr_server.specs.SignedAnswers.{OtherIsHandedOn, TransferIsAnswered};
ghost use Rattle.xfr_server.specs.JoinedAnswers.{AnswersJoin};
ghost use Rattle.xfr_signing.specs.Failing.{fails, FailsWhereLong, IsTooLong};
ghost use Rattle.xfr_services.specs.Items.{Calls, all_given};
ghost use Rattle.xfr_services.specs.LongReplies.{FailsOnlyWhereLong};
ghost use Rattle.xfr_services.specs.declared.services.CallResult.{CallResult as CallResultOf};
ghost use Rattle.xfr_services.specs.declared.requests.Request.{Request as RequestOf};
ghost use Rattle.xfr_services.specs.declared.modes.XfrMode.{XfrMode as ModeOf};
ghost use Rattle.tsig_port.specs.ServerCheck.{verdict};

use crate::{PrimaryStack, Service, XfrDataProvider, XfrMiddlewareSvc};
use tsig_port::KeyStore;

/// What is sent of an offer is the model's text in answer to the serial that is named, but to who asks for AXFR by UDP; each text begins with an SOA.
pub fn texts_are_chosen()
    ensures chosen { TextIsChosen }
    ensures begin { TextsBegin }
{}

/// A signed request for a transfer that a primary accepts and its provider grants is answered with the whole text, be it the zone, the
/// differences or the SOA alone: a message for each of its pages, signed one after another.
pub fn granted_transfers_are_sent<
    KS: KeyStore,
    N: Service<Option<KS::Key>>,
    X: XfrDataProvider<Option<KS::Key>>,
>()
    ensures { (next : N) (provider : X) (keys : KS) (r : RequestOf (Unit {0})) (key : TsigKey) (mode : ModeOf) (serial : ℕ) (offer : Offer) (sent : Option (List Sending))
        → SendsWhole (⟦<PrimaryStack<N, X, KS> as Service<()>>⟧.Sends ((next, provider), keys)) KS.Key.the_key (KS.key_of keys) (X.told provider) r key mode serial offer sent }
{}

/// A signed request that a primary accepts, by whatever transport: where it asks for a transfer, what is chosen of the provider's offer is told
/// in messages that are signed one after another; any other is answered by the next service, and its replies are signed.
pub fn signed_requests_are_answered<
    KS: KeyStore,
    N: Service<Option<KS::Key>>,
    X: XfrDataProvider<Option<KS::Key>>,
>()
    ensures transfers { (next : N) (provider : X) (keys : KS) (r : RequestOf (Unit {0})) (key : TsigKey) (mode : ModeOf) (sent : Option (List Sending))
        → TransferIsAnswered (⟦<PrimaryStack<N, X, KS> as Service<()>>⟧.Sends ((next, provider), keys)) KS.Key.the_key (KS.key_of keys) (X.told provider) r key mode sent }
    ensures others { (next : N) (provider : X) (keys : KS) (r : RequestOf (Unit {0})) (key : TsigKey) (sent : Option (List Sending))
        → OtherIsHandedOn (⟦<PrimaryStack<N, X, KS> as Service<()>>⟧.Sends ((next, provider), keys)) (KS.key_of keys) (N.Sends next) r key sent }
{}

/// The messages that tell a text join to it, where it has room: by UDP whole in the one message, by a stream each record in one of its own.
pub fn answers_join()
    ensures { AnswersJoin }
{}

/// Nothing refuses these messages as the answers to their request, and each has a wire form where its records have one.
pub fn granted_transfers_are_taken()
    ensures taken { WholeIsTaken }
    ensures wire { TransferIsMessage }
{}

/// Above a service that fails only for questions past 65,535 octets, the transfer service fails only for such questions.
pub fn transfers_fail_where_long<M: Default + Drop, N: Service<M>, X: XfrDataProvider<M>>()
    ensures { (next : N) (provider : X) → FailsWhereLong (N.Sends next) → FailsWhereLong (⟦<XfrMiddlewareSvc<N, X> as Service<M>>⟧.Sends (next, provider)) }
{}

/// So does a primary, but that a signature counts with the questions of a request that it accepts.
pub fn primaries_fail_where_long<
    KS: KeyStore,
    N: Service<Option<KS::Key>>,
    X: XfrDataProvider<Option<KS::Key>>,
>()
    ensures { (next : N) (provider : X) (keys : KS) → FailsWhereLong (N.Sends next) → (r : RequestOf (Unit {0})) (sent : Option (List Sending))
        → ⟦<PrimaryStack<N, X, KS> as Service<()>>⟧.Sends ((next, provider), keys) r sent → fails sent ≡ true → IsTooLong r (verdict (KS.key_of keys) r.at r.message) }
{}

/// A service whose replies were made beforehand doesn't fail: what the trait's clause `failing` asks of it.
pub fn made_replies_do_not_fail()
    ensures { (request : List ℕ) (replies : List CallResultOf) → Calls (FailsOnlyWhereLong request) (λ s items. items ≡ all_given s) (Ok replies) }
{}
