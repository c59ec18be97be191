// Laws of what is served, each the contract of a function that does nothing.
ghost use Rattle.std.specs.Prelude.{◌≡◌, ◌≢◌, ℕ, List, [], Option, Some, Result, Ok, Err};
ghost use Rattle.zone_serving.specs.StreamServing.{ServesStream, request_at};
ghost use Rattle.zone_serving.specs.WholeStreams.{CanBeServed, EndsWell, ServesToEnd, ServesToShort};
ghost use Rattle.zone_serving.specs.declared.errors.ServeError.{ServeError as WhyOf};
ghost use Rattle.zone_serving.specs.declared.errors.ServeError.TheVariants as why;
ghost use Rattle.zone_serving.specs.declared.serving.Served.{Served as ServedOf};

use message_frames::laws::octets_are_cut_frame_by_frame;
use xfr_services::Service;

/// What each answer without a fault says of all octets of the stream. It ends well only where these are the frames of its requests: each was answered,
/// and the sink took the frames of all replies. It is cut only where octets are left behind the last whole frame, and all whole ones were answered.
/// It ends as `Short` only where a message has no header, and all before it were answered.
pub fn ends_tell_the_octets<P: Service<()>>()
    ensures whole { (primary : P) (at : ℕ) (octets : List ℕ) (src_new sink_old sink_new : Option (List ℕ)) (s : ServedOf)
        → ServesStream (λ m. P.Sends primary (request_at m at)) (Some octets) src_new sink_old sink_new (Ok s)
        → ServesToEnd (λ m. P.Sends primary (request_at m at)) octets [] s.requests src_new sink_old sink_new }
    ensures cut { (primary : P) (at : ℕ) (octets : List ℕ) (src_new sink_old sink_new : Option (List ℕ))
        → ServesStream (λ m. P.Sends primary (request_at m at)) (Some octets) src_new sink_old sink_new (Err why.Cut)
        → (left : List ℕ) × (count : ℕ) × (left ≢ []) × ServesToEnd (λ m. P.Sends primary (request_at m at)) octets left count src_new sink_old sink_new }
    ensures short { (primary : P) (at : ℕ) (octets : List ℕ) (src_new sink_old sink_new : Option (List ℕ))
        → ServesStream (λ m. P.Sends primary (request_at m at)) (Some octets) src_new sink_old sink_new (Err why.Short)
        → ServesToShort (λ m. P.Sends primary (request_at m at)) octets sink_old sink_new }
{
    // For the proof: octets are cut at their first frame, and behind it.
    octets_are_cut_frame_by_frame();
}

/// A stream of whole requests, to none of which the service fails, is served to its end, but for faults, want of memory and 2^64 - 1 requests.
pub fn whole_streams_are_served<P: Service<()>>()
    ensures { (primary : P) (at : ℕ) (octets : List ℕ) (src_new sink_old sink_new : Option (List ℕ)) (answer : Result ServedOf WhyOf)
        → ServesStream (λ m. P.Sends primary (request_at m at)) (Some octets) src_new sink_old sink_new answer
        → CanBeServed (λ m. P.Sends primary (request_at m at)) octets → answer ≢ Err why.SourceFault → answer ≢ Err why.SinkFault → EndsWell answer }
{
    // For the proof: octets are cut at their first frame, and behind it.
    octets_are_cut_frame_by_frame();
}
