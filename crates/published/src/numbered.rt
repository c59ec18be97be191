//! What may be published.

use std::alloc::AllocError;

/// A value with a number, which can be copied. A reader calls both methods while the publishing end may have to wait for it, so keep them short: a copy
/// that shares what it holds, as an `Arc` does.
pub trait Numbered {
    ghost use Rattle.std.specs.Prelude.{◌≡◌, ℕ, IfOk};

    ghost number_of: { Self → ℕ };

    /// Its number. The next entry of a history has the next number.
    fn number(&self) -> u64
        ensures { result ≡ number_of self.now };

    /// A copy, an error where there is no memory for it.
    fn again(&self) -> Result<Self, AllocError>
        ensures { IfOk result (λ x. x ≡ self.now) };
}
