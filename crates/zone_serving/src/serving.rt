//! Requests of a source, answered into a sink.
ghost use Rattle.std.specs.Prelude.{◌≡◌, ◌≢◌, List, Some, Ok, Err, OnOk};
ghost use Rattle.zone_devices.specs.Calls.{Rose};
ghost use Rattle.xfr_services.specs.Items.{Sending};
ghost use Rattle.zone_serving.specs.StreamServing.{request_at, AnswersBy, RepliesBy, StepsBy, ServesStream};

use crate::errors::ServeError;
use dns_wire::MessageBuf;
use message_frames::laws::octets_are_cut_frame_by_frame;
use message_frames::reading::read_frame;
use message_frames::writing::write_frame;
use std::alloc::Global;
use std::sync::Wait;
use tsig_port::Time48;
use xfr_services::{ReplyStream, Request, Service, TransportSpecificContext};
use zone_devices::sinks::Sink;
use zone_devices::sources::Source;

/// How many requests of one stream are answered at most.
pub const MOST_REQUESTS: u64 = 18_446_744_073_709_551_615;

/// A stream that was served to its end.
#[derive(Clone, Copy, Debug, PartialEq, Eq)]
pub struct Served {
    /// How many requests it had.
    pub requests: u64,
}

/// Serves a stream of requests to its end: each is read as a frame, asked of the service as one that came by a stream at this moment, and each
/// reply to it is written as a frame before the next request is read (RFC 1035, 4.2.2; RFC 7766, 6.2.1). Nothing is written that isn't a reply to the
/// request that was read last, and nothing is read behind that. It may wait where the primary reads its zone, and for the streams.
///
/// A stream ends well at the end of a frame. A request without a header of 12 octets ends it with `Short`: no reply could have its id, and what
/// sends that speaks no DNS.
pub fn serve_stream<R: Wait, S: Source, K: Sink, P: Service<()>>(
    rt: &R,
    alloc: Global,
    primary: &P,
    at: Time48,
    src: &mut S,
    sink: &mut K,
) -> Result<Served, ServeError>
    // Whatever octets the source gives: its frames are its requests, in order, and the sink takes the frames of what the service sends to each; and
    // by the answer, what was read and written behind the last request that was answered whole.
    ensures serves { ServesStream (λ m. P.Sends primary.now (request_at m at)) (S.remaining src.old) (S.remaining src.new) (K.taken sink.old) (K.taken sink.new) result }
    // The faults.
    ensures source_failed { result ≡ Err ServeError.SourceFault → Rose (S.faults src.old) (S.faults src.new) }
    ensures source_steady { result ≢ Err ServeError.SourceFault → S.faults src.new ≡ S.faults src.old }
    ensures sink_failed { result ≡ Err ServeError.SinkFault → Rose (K.faults sink.old) (K.faults sink.new) }
    ensures sink_steady { result ≢ Err ServeError.SinkFault → K.faults sink.new ≡ K.faults sink.old }
{
    // For the proof: octets are cut at their first frame, and behind it.
    octets_are_cut_frame_by_frame();
    let mut requests = 0u64;
    'serving: while requests < MOST_REQUESTS {
        let served = serve_next(rt, alloc, primary, at, src, sink)?;
        if !served {
            return Ok(Served { requests });
        }
        requests += 1;
    }
    Err(ServeError::TooMany)
}

/// Reads the next request and answers it; whether there was one.
fn serve_next<R: Wait, S: Source, K: Sink, P: Service<()>>(
    rt: &R,
    alloc: Global,
    primary: &P,
    at: Time48,
    src: &mut S,
    sink: &mut K,
) -> Result<bool, ServeError>
    ensures steps { StepsBy (λ m. P.Sends primary.now (request_at m at)) (S.remaining src.old) (S.remaining src.new) (K.taken sink.old) (K.taken sink.new) result }
    ensures source_failed { result ≡ Err ServeError.SourceFault → Rose (S.faults src.old) (S.faults src.new) }
    ensures source_steady { result ≢ Err ServeError.SourceFault → S.faults src.new ≡ S.faults src.old }
    ensures sink_failed { result ≡ Err ServeError.SinkFault → Rose (K.faults sink.old) (K.faults sink.new) }
    ensures sink_steady { result ≢ Err ServeError.SinkFault → K.faults sink.new ≡ K.faults sink.old }
{
    let Some(message) = read_frame(alloc, src)? else {
        return Ok(false);
    };
    answer_request(rt, alloc, primary, at, message, sink)?;
    Ok(true)
}

/// Asks the service a request, and writes its replies.
fn answer_request<R: Wait, K: Sink, P: Service<()>>(
    rt: &R,
    alloc: Global,
    primary: &P,
    at: Time48,
    message: Vec<u8>,
    sink: &mut K,
) -> Result<(), ServeError>
    ensures replies { RepliesBy (P.Sends primary.now (request_at message.items at)) message.items (K.taken sink.old) (K.taken sink.new) result }
    ensures other { result ≢ Err ServeError.SourceFault }
    ensures failed { result ≡ Err ServeError.SinkFault → Rose (K.faults sink.old) (K.faults sink.new) }
    ensures steady { result ≢ Err ServeError.SinkFault → K.faults sink.new ≡ K.faults sink.old }
{
    let message = MessageBuf::from_octets(message)?;
    let request = Request::new(message, TransportSpecificContext::NonUdp, at, ());
    let replies = primary.call(rt, alloc, request)?;
    write_replies(replies, sink)
}

/// Writes all replies of a stream of replies, each as a frame.
fn write_replies<S: ReplyStream, K: Sink>(replies: S, sink: &mut K) -> Result<(), ServeError>
    ensures written { (items : List Sending) → S.LeftOf replies items → AnswersBy (λ given. given ≡ Some items) (K.taken sink.old) (K.taken sink.new) result }
    ensures failed { result ≡ Err ServeError.SinkFault → Rose (K.faults sink.old) (K.faults sink.new) }
    ensures steady { result ≢ Err ServeError.SinkFault → K.faults sink.new ≡ K.faults sink.old }
{
    let mut replies = replies;
    'replies: while let Some(item) = replies.next_item() {
        if let Some(reply) = item?.into_response() {
            write_frame(sink, reply.finish().as_slice())?;
        }
    }
    Ok(())
}
