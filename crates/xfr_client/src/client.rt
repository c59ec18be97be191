//! The secondary's half of a transfer.
ghost use Rattle.std.specs.Prelude.{◌≡◌, ◌≢◌, [], ◌∷◌, ◌++◌, ℕ, true, false, List, IsSome, IfOk, IfErr, OnOk, OnErr, is_some, Some, None, Ok, Err};
ghost use Rattle.zone_model.specs.Commits.{Commit};
ghost use Rattle.zone_reads.specs.Session.{rolled_back};
ghost use Rattle.xfr_outcomes.specs.Modes.{mode_of};
ghost use Rattle.xfr_client.specs.SoFar.{asked_octets, CanAsk, CantAsk};
ghost use Rattle.xfr_client.specs.Standing.{asking_of, Stands, TakesReply, ReadsWhole};
ghost use Rattle.xfr_client.specs.Room.{ReplyKeepsRoom, ReplyStopsAt};
ghost use Rattle.xfr_client.specs.Growing.{Grows};
ghost use Rattle.xfr_client.specs.Steps.{KeepsWish, StaysStill};

use crate::exchange::Client;
use dns_wire::MessageBuf;
use std::alloc::Global;
use std::marker::Model;
use std::sync::Wait;
use tsig_port::{Key, Time48};
use xfr_outcomes::{SyncError, SyncOk};
use xfr_services::XfrMode;
use zone_reads::ReadZone;
use zone_sessions::WriteZone;

/// A secondary in one transfer: it makes the request, and takes the replies one by one into the session that it borrows.
///
/// It can't be let go: `into_session` ends it, and gives the session back without what a transfer left pending.
pub struct XfrClient<'s, 'z> {
    session: &'s mut WriteZone<'z>,
    client: Client,
}

impl<'s, 'z> Model for XfrClient<'s, 'z> {
    ghost use Rattle.xfr_client.specs.Borrowing.{OpenClient};

    ghost Value = { OpenClient };

    ghost view = { λ c. record { client = c.client; session = c.session.now; lender = c.session.ghost_name } };
}

impl<'s, 'z> XfrClient<'s, 'z> {
    /// A client that made no request yet. It signs, and checks signatures, at this moment.
    pub fn new(
        alloc: Global,
        session: &'s mut WriteZone<'z>,
        key: &Key,
        mode: XfrMode,
        at: Time48,
    ) -> XfrClient<'s, 'z>
        ensures client { result.client ≡ record { key = key.now; mode = mode_of mode; at = at; exchange = None; most = None; full = false } }
        ensures session { result.session ≡ session.old }
        ensures lender { result.lender ≡ session.entry.ghost_name }
    {
        XfrClient {
            session,
            client: Client::new(alloc, key, mode, at),
        }
    }

    /// Ends the transfer, and gives the session back. What is pending is dropped; what was committed stays.
    pub fn into_session(self) -> &'s mut WriteZone<'z>
        ensures session { result.now ≡ rolled_back self.entry.session }
        ensures same_borrow { result.ghost_name ≡ self.entry.lender }
    {
        let XfrClient { session, client } = self;
        drop(client);
        session.rollback();
        session
    }

    /// Limits how many records an owner and type may get: a reply that adds one more is refused before it is added.
    /// Without a limit there may be as many as come.
    pub fn limit_sets(&mut self, most: usize)
        ensures { self.new ≡ record self.old { client = record self.old.client { most = Some most } } }
    {
        self.client.limit_sets(most);
    }

    /// Whether the last reply was answered by `Memory` since it adds a record to a set that has as many as it may.
    pub fn has_full_set(&self) -> bool
        ensures { result ≡ self.now.client.full }
    {
        self.client.has_full_set()
    }

    /// Whether a request was made, and neither an outcome nor a refusal came since.
    pub fn is_open(&self) -> bool
        ensures { result ≡ is_some self.now.client.exchange }
    {
        self.client.is_open()
    }

    /// Drops what is pending, and makes the signed request: the id is the low 16 bits of the moment, all flags are 0, the question
    /// is the zone's apex (RFC 5936, 2.1), and for what is newer the first apex SOA record is its authority (RFC 1995, 3). `NoSoa`
    /// where there is none then; `Request(ShortBuf)` where it has more octets than these or than a message.
    pub fn request(&mut self, max_len: usize) -> Result<MessageBuf, SyncError>
        ensures ok { IfOk result (λ m. (m ≡ asked_octets (asking_of self.old.client self.old.session.current)) × CanAsk (asking_of self.old.client self.old.session.current) max_len) }
        // The client stands for no reply yet.
        ensures begun { OnOk result ((handles : List Commit) → Stands self.new.client self.new.session (asking_of self.old.client self.old.session.current) [] handles handles) }
        ensures refused { IfErr result (λ e. CantAsk (asking_of self.old.client self.old.session.current) max_len e) }
        // Nothing is pending, and the current version stays.
        ensures session { self.new.session ≡ record (rolled_back self.old.session) { has_handle = self.new.session.has_handle } }
        ensures closed { OnErr result (self.new.client.exchange ≡ None) }
        ensures asks { asking_of self.new.client self.new.session.current ≡ asking_of self.old.client self.old.session.current }
        ensures limit { (self.new.client.most ≡ self.old.client.most) × (self.new.client.full ≡ false) }
        ensures lender { self.new.lender ≡ self.old.lender }
    {
        self.client.request(self.session, max_len)
    }

    /// Takes a reply: checks its signature, and applies the updates that it says. The outcome, where the transfer ends with it, is
    /// told, and so is a refusal; after either the client isn't open and nothing is pending. `UpToDate` is told where the first reply
    /// to a question for what is newer is one SOA record alone, with the serial that was asked with (RFC 1995, 2); with another serial
    /// that is `Iteration(SingleSoaIxfrTcpRetrySignal)`. Each version that is committed gives a handle at the end of `made`. It may
    /// wait where it commits.
    ///
    /// `Memory` comes too where the reply adds a record to a set that has as many as it may, which `has_full_set` tells then; that
    /// record isn't added, and what the updates before it committed stays.
    pub fn take<R: Wait>(
        &mut self,
        rt: &R,
        octets: Vec<u8>,
        made: &mut Vec<ReadZone>,
    ) -> Result<Option<SyncOk>, SyncError>
        requires { IsSome self.old.client.exchange }
        ensures takes { (base : Commit) (taken : List (List ℕ)) (before : List Commit) → Stands self.old.client self.old.session (asking_of self.old.client base) taken before made.old.items
            → TakesReply (asking_of self.old.client base) self.new.client self.new.session before made.new.items taken octets.items result }
        ensures asks { (base : Commit) → asking_of self.new.client base ≡ asking_of self.old.client base }
        ensures closed { result ≢ Ok None → self.new.client.exchange ≡ None }
        ensures open { result ≡ Ok None → IsSome self.new.client.exchange }
        ensures pending { result ≢ Ok None → self.new.session.pending ≡ self.new.session.current.version }
        // .. and no difference is wanted of the next commit.
        ensures wish { result ≢ Ok None → self.new.session.compares ≡ false }
        // In between one is wanted as before, where no version was committed ..
        ensures keeps { result ≡ Ok None → KeepsWish self.old.session self.new.session }
        // .. and by a reply after which the client is in a whole text none was.
        ensures still { (base : Commit) (taken : List (List ℕ)) (before : List Commit) → result ≡ Ok None
            → Stands self.old.client self.old.session (asking_of self.old.client base) taken before made.old.items
            → ReadsWhole (asking_of self.old.client base) (taken ++ octets.items ∷ []) → StaysStill self.old.session self.new.session }
        // The updates that were done of it had room ..
        ensures room { (base : Commit) (taken : List (List ℕ)) (before : List Commit) → Stands self.old.client self.old.session (asking_of self.old.client base) taken before made.old.items
            → ReplyKeepsRoom self.old.client.most (asking_of self.old.client base) self.new.session before made.new.items taken octets.items result }
        // .. and where `Memory` is the answer, the flag tells whether the next one has none; else it is low.
        ensures stops { (base : Commit) (taken : List (List ℕ)) (before : List Commit) → Stands self.old.client self.old.session (asking_of self.old.client base) taken before made.old.items
            → result ≡ Err SyncError.Memory → ReplyStopsAt self.old.client.most (asking_of self.old.client base) self.new.session before made.new.items taken octets.items self.new.client.full }
        ensures full { self.new.client.full ≡ true → result ≡ Err SyncError.Memory }
        // The zone's history gains the commits of the handles that came.
        ensures history { Grows self.old.session.past self.new.session.past made.old.items made.new.items }
        ensures limit { self.new.client.most ≡ self.old.client.most }
        ensures lender { self.new.lender ≡ self.old.lender }
    {
        self.client.take(rt, self.session, octets, made)
    }
}
