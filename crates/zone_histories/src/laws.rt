// Laws of the definitions, each the contract of a function with an empty body.
ghost use Rattle.std.specs.Prelude.{◌≡◌, ℕ, IsTrue, nat_lt, Option, None, if◌then◌else◌};
ghost use Rattle.zone_histories.specs.Histories.{History, is_upto, value_at, before, written, removed};

/// A write holds from its version on, and changes no earlier one; a value that is taken away is none from there on; and without the writes from a
/// version on, earlier versions stay, and the last write is undone.
pub fn writes_hold<T: Drop>()
    ensures written { (h : History T) (v w : ℕ) (x : Option T) → value_at (written h v x) w ≡ (if nat_lt w v then value_at h w else x) }
    ensures removed { (h : History T) (v w : ℕ) → IsTrue (is_upto h v) → value_at (removed h v) w ≡ (if nat_lt w v then value_at h w else None) }
    ensures kept { (h : History T) (v w : ℕ) → IsTrue (nat_lt w v) → value_at (before h v) w ≡ value_at h w }
    ensures undone { (h : History T) (v : ℕ) (x : Option T) → before (written h v x) v ≡ before h v }
{}
