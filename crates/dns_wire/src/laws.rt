// Laws of the definitions, each the contract of a function with an empty body.
ghost use Rattle.std.specs.Prelude.{◌≡◌, ◌<◌, ◌≤◌, ◌^◌, ℕ, List, length, true};
ghost use Rattle.dns_wire.specs.Wire.{message_wire, fits};
ghost use Rattle.dns_wire.specs.Parse.{questions_in};
ghost use Rattle.dns_wire.specs.Reply.{error_answer};

/// An error answer is within the push limit wherever its header of 12 octets is, so `start_error` answers `ShortBuf` only below that.
pub fn error_answers_fit()
    ensures { (limit rcode : ℕ) (request : List ℕ) → 12 ≤ limit → length (questions_in request) < 2 ^ 16
        → fits limit (message_wire (error_answer limit request rcode)) ≡ true }
{}
