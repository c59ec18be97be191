// Laws of both halves, each the contract of a function that does nothing.
ghost use Rattle.std.specs.Prelude.{◌≡◌, ◌≤◌, ℕ, List, [], length, Some, None, Option, Result, Ok};
ghost use Rattle.tsig_port.specs.Tsig.{TsigKey};
ghost use Rattle.zone_model.specs.Version.{Version};
ghost use Rattle.zone_model.specs.Commits.{Commit};
ghost use Rattle.zone_reads.specs.Session.{Session};
ghost use Rattle.xfr_outcomes.specs.declared.outcome.SyncOk.{SyncOk as DoneOf};
ghost use Rattle.xfr_client.specs.SoFar.{Asking, asked_octets};
ghost use Rattle.zone_asking.specs.declared.limits.Limits.{Limits as LimitsOf};
ghost use Rattle.zone_asking.specs.declared.errors.AskError.{AskError as WhyOf};
ghost use Rattle.zone_asking.specs.Exchanges.{Crossing, Exchanges};
ghost use Rattle.zone_asking.specs.Retries.{ExchangesByRule};
ghost use Rattle.zone_asking.specs.Wishes.{Wish};
ghost use Rattle.zone_asking.specs.Running.{Met, asking_at};
ghost use Rattle.zone_asking.specs.declared.program.RunEnd.{RunEnd as EndOf};
ghost use Rattle.zone_script.specs.Script.{Script};
ghost use Rattle.zone_primary_run.specs.ScriptPrimaries.{PrimaryParts};
ghost use Rattle.zone_serving.specs.StreamServing.{ServesStream};
ghost use Rattle.zone_serving.specs.declared.serving.Served.{Served as ServedOf};
ghost use Rattle.message_frames.specs.Frames.{frame_of};
ghost use Rattle.zone_sync.specs.Serving.{request_at};
ghost use Rattle.zone_sync.specs.Delivery.{IsGranted};
ghost use Rattle.zone_halves.specs.Meeting.{WritesAll, IsWritten, IsSteady, DeliversBy};
ghost use Rattle.zone_halves.specs.Programs.{ServesOne, SendsTaken, AsksOnce, ProgramDelivers};

use message_frames::laws::{frames_written_are_cut, octets_are_cut_frame_by_frame};
use xfr_services::Service;
use zone_asking::laws::{messages_pass_limits, none_is_passed_over};
use zone_primary_run::Primary;
use zone_serving::laws::ends_tell_the_octets;
use zone_sync::laws::{granted_transfers_are_a_message_a_page, honest_links_deliver};

/// What `serve_stream` writes where its source gives one request's frame and nothing more, and it ends well: the frames of all that the primary sends to that
/// request.
pub fn one_request_is_answered<P: Service<()>>()
    ensures { (primary : P) (at : ℕ) (request : List ℕ) (src_new sink_new : Option (List ℕ)) (s : ServedOf) → length request ≤ 65535
        → ServesStream (λ m. P.Sends primary (request_at m at)) (Some (frame_of request)) src_new (Some []) sink_new (Ok s)
        → WritesAll (P.Sends primary (request_at request at)) sink_new }
{
    // For the proof: what a stream that ended well says of its octets.
    frames_written_are_cut();
    ends_tell_the_octets::<P>();
}

/// What a secondary comes to whose source holds all that a granting primary sends to its request (the premises of `sync_zone`'s headline): where no call of its
/// source or sink fails, `ask_zone` ends with Ok or want of memory, and after Ok its current version is the primary's.
pub fn exchanges_deliver<P: Service<()>>()
    ensures { (primary : P) (limits : LimitsOf) (a : Asking) (at : ℕ) (v : Version) (x : Crossing) (before handles : List Commit) (s : Session) (answer : Result DoneOf WhyOf)
        → Exchanges limits None a x before handles s answer → IsGranted (λ m. P.Sends primary (request_at m at)) a at 65535 v
        → IsWritten (P.Sends primary (request_at (asked_octets a) at)) limits a x.left_old → IsSteady answer → DeliversBy v s answer }
{
    // For the proof: frames that were written are cut into their messages, and an honest link delivers.
    frames_written_are_cut();
    octets_are_cut_frame_by_frame();
    messages_pass_limits();
    none_is_passed_over();
    granted_transfers_are_a_message_a_page();
    honest_links_deliver::<P>();
}

/// So does `transfer_zone`: it makes one exchange then, and no second one.
pub fn transfers_deliver<P: Service<()>>()
    ensures { (primary : P) (limits : LimitsOf) (a : Asking) (at : ℕ) (v : Version) (x : Crossing) (before handles : List Commit) (s : Session) (answer : Result DoneOf WhyOf)
        → ExchangesByRule limits a x before handles s answer → IsGranted (λ m. P.Sends primary (request_at m at)) a at 65535 v
        → IsWritten (P.Sends primary (request_at (asked_octets a) at)) limits a x.left_old → IsSteady answer → DeliversBy v s answer }
{
    // For the proof: what one exchange comes to.
    exchanges_deliver::<P>();
}

/// What the program `zone_peer primary` (`run_words`) writes where its source gives one request's frame and nothing more, and it ends well: the frames of all
/// that the primary of its script sends to that request.
pub fn one_request_is_served()
    ensures { (p : PrimaryParts) (at : ℕ) (request : List ℕ) (written : Option (List ℕ)) → length request ≤ 65535
        → ServesOne (λ now q m. ⟦<Primary as Service<()>>⟧.Sends q (request_at m now)) p at request written
        → WritesAll (⟦<Primary as Service<()>>⟧.Sends p (request_at request at)) written }
{
    // For the proof: what a stream of one request comes to.
    one_request_is_answered::<Primary>();
}

/// What the program `zone_peer secondary` (`run_secondary`) comes to over a source that has what a granting primary sends: with success, and the report of a
/// transfer that left the primary's version as the current one; or memory ran out. Its words ask for this transfer, its file is the script of its zone and key,
/// the moment is known, and none of its devices fails (`AsksOnce`); the primary grants the version to the request that it makes (`IsGranted`); and the
/// source has the frames of all that this primary sends to that request and nothing else, which the limits of the words let pass (`IsWritten`).
pub fn fetched_versions_are_granted<P: Service<()>>()
    ensures { (primary : P) (served : ℕ) (v : Version) (w : Wish) (at : ℕ) (script : Script TsigKey) (key : TsigKey) (m : Met) (result : EndOf)
        → AsksOnce w at script key m result → IsGranted (λ q. P.Sends primary (request_at q served)) (asking_at at w.mode script key) served 65535 v
        → IsWritten (P.Sends primary (request_at (asked_octets (asking_at at w.mode script key)) served))
        w.limits (asking_at at w.mode script key) m.streams.left_old
        → ProgramDelivers v w at m result }
{
    // For the proof: what a transfer comes to.
    transfers_deliver::<P>();
}

/// Completeness of both programs: so does `zone_peer secondary` beside `zone_peer primary`, where that one's file is a script, its source has just the frame of
/// the secondary's request, its sink was empty, it ends well, and the secondary's source has just what it wrote (`ServesOne`); where the secondary is as
/// above (`AsksOnce`); where the primary of that script grants a version to that request at its own moment (`IsGranted`); and where whatever it sends to it
/// fits frames and passes no limit of the secondary's words (`SendsTaken`).
pub fn programs_deliver()
    ensures { (p : PrimaryParts) (served : ℕ) (v : Version) (w : Wish) (at : ℕ) (script : Script TsigKey) (key : TsigKey) (m : Met) (result : EndOf)
        → ServesOne (λ now q r. ⟦<Primary as Service<()>>⟧.Sends q (request_at r now)) p served
        (asked_octets (asking_at at w.mode script key)) m.streams.left_old
        → AsksOnce w at script key m result
        → IsGranted (λ q. ⟦<Primary as Service<()>>⟧.Sends p (request_at q served)) (asking_at at w.mode script key) served 65535 v
        → SendsTaken (⟦<Primary as Service<()>>⟧.Sends p (request_at (asked_octets (asking_at at w.mode script key)) served))
        w.limits (asking_at at w.mode script key)
        → ProgramDelivers v w at m result }
{
    // For the proof: what each half does.
    one_request_is_served();
    fetched_versions_are_granted::<Primary>();
}
