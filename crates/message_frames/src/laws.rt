// Laws of frames, each the contract of a function with an empty body.
ghost use Rattle.std.specs.Prelude.{◌≡◌, ◌≤◌, ◌++◌, [], nat_lt, ℕ, List, length, Some, None, IsTrue};
ghost use Rattle.std.specs.List.{list_all, AllByRecursion};
ghost use Rattle.message_frames.specs.Frames.{frame_of, frames_of, first_frame, with_message, cut_frames};

/// A frame is found at the front of what it begins, whatever is behind it.
pub fn frames_are_found()
    ensures { (message more : List ℕ) → length message ≤ 65535 → first_frame (frame_of message ++ more) ≡ Some (message, more) }
{}

/// Octets are cut at their first frame, and behind it, until none is whole.
pub fn octets_are_cut_frame_by_frame()
    ensures none { (octets : List ℕ) → first_frame octets ≡ None → cut_frames octets ≡ record { messages = []; left = octets } }
    ensures some { (octets message rest : List ℕ) → first_frame octets ≡ Some (message, rest)
        → cut_frames octets ≡ with_message message (cut_frames rest) }
{}

/// Messages that were written one after another are cut into just these, with whatever follows behind them.
pub fn frames_written_are_cut()
    ensures alone { (messages : List (List ℕ)) → AllByRecursion (λ m. length m ≤ 65535) messages
        → cut_frames (frames_of messages) ≡ record { messages = messages; left = [] } }
    ensures before { (messages : List (List ℕ)) (more : List ℕ) → AllByRecursion (λ m. length m ≤ 65535) messages
        → cut_frames (frames_of messages ++ more)
        ≡ record { messages = messages ++ (cut_frames more).messages; left = (cut_frames more).left } }
{}

/// Octets that were cut are the frames of the messages and then what is left, which has no whole frame.
pub fn frames_cut_are_the_octets()
    ensures octets { (octets : List ℕ) → IsTrue (list_all (λ c. nat_lt c 256) octets)
        → frames_of (cut_frames octets).messages ++ (cut_frames octets).left ≡ octets }
    ensures lengths { (octets : List ℕ) → IsTrue (list_all (λ c. nat_lt c 256) octets)
        → AllByRecursion (λ m. length m ≤ 65535) (cut_frames octets).messages }
    ensures left { (octets : List ℕ) → first_frame (cut_frames octets).left ≡ None }
{}
