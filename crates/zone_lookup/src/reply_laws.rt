// Laws of the definitions, each the contract of a function with an empty body.
ghost use Rattle.std.specs.Prelude.{◌≡◌, ◌≤◌, ℕ, List, [], ◌∷◌, Some, true, false};
ghost use Rattle.dns_wire.specs.Wire.{Question, message_wire, fits};
ghost use Rattle.dns_wire.specs.Parse.{questions_in, sole_question_in};
ghost use Rattle.zone_lookup.specs.Replies.{Reply};
ghost use Rattle.zone_lookup.specs.Sending.{whole_reply, needed_reply, reply_message};

/// A reply has no more octets than the limit, where a header of 12 octets hasn't, and its question is the one that was asked.
pub fn replies_are_within_the_limit()
    ensures within { (limit : ℕ) (request : List ℕ) (a : Reply) → 12 ≤ limit → fits limit (message_wire (reply_message limit request a)) ≡ true }
    ensures asked { (request : List ℕ) (q : Question) → sole_question_in request ≡ Some q → questions_in request ≡ q ∷ [] }
{}

/// Where all records have room, the reply has them all. Where those that the answer needs have, it isn't said to be cut (RFC 2181, 9).
pub fn replies_leave_out_what_has_no_room()
    ensures whole { (limit : ℕ) (request : List ℕ) (a : Reply) (q : Question) → sole_question_in request ≡ Some q
        → fits limit (message_wire (whole_reply request a q)) ≡ true → reply_message limit request a ≡ whole_reply request a q }
    ensures needed { (limit : ℕ) (request : List ℕ) (a : Reply) (q : Question) → sole_question_in request ≡ Some q
        → fits limit (message_wire (needed_reply request a q)) ≡ true → (reply_message limit request a).header.tc ≡ false }
{}
