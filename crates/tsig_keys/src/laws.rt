// Laws of the definitions, each the contract of a function with an empty body.
ghost use Rattle.std.specs.Prelude.{◌≡◌, ℕ, List};
ghost use Rattle.tsig_keys.specs.Hmac.{hmac, block_key};
ghost use Rattle.tsig_keys.specs.declared.algorithms.Algorithm.{Algorithm};

/// A key filled up to a block gives the same MACs.
pub fn block_key_is_the_key()
    ensures { (algorithm : Algorithm) (key text : List ℕ) → hmac algorithm (block_key algorithm key) text ≡ hmac algorithm key text }
{}
