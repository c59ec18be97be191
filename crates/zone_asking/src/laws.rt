// Laws of limits and of the second exchange, each the contract of a function with an empty body.
ghost use Rattle.std.specs.Prelude.{◌≡◌, ◌≢◌, ◌<◌, ◌%◌, ◌^◌, ◌++◌, ◌∷◌, [], ℕ, List, Some, None};
ghost use Rattle.zone_asking.specs.declared.limits.Limits.{Limits};
ghost use Rattle.zone_asking.specs.declared.limits.Limit.{Limit};
ghost use Rattle.zone_asking.specs.Limiting.{passed, Within};
ghost use Rattle.zone_asking.specs.Retries.{next_moment};
ghost use Rattle.zone_asking.specs.Streams.{replies_among};

/// One message more passes a limit exactly where it isn't within them together with those before it.
pub fn messages_pass_limits()
    ensures within { (limits : Limits) (before : List (List ℕ)) (m : List ℕ) → passed limits before m ≡ None → Within limits (before ++ m ∷ []) }
    ensures beyond { (limits : Limits) (before : List (List ℕ)) (m : List ℕ) (which : Limit) → passed limits before m ≡ Some which → ¬ Within limits (before ++ m ∷ []) }
{}

/// Where no id is given, each message that is read is a reply.
pub fn none_is_passed_over()
    ensures { (read : List (List ℕ)) → replies_among None read ≡ read }
{}

/// The request of a second exchange has another id than that of the first one, and its moment has 48 bits.
pub fn next_moment_has_another_id()
    ensures other { (at : ℕ) → next_moment at % 2 ^ 16 ≢ at % 2 ^ 16 }
    ensures fits { (at : ℕ) → at < 2 ^ 48 → next_moment at < 2 ^ 48 }
{}
