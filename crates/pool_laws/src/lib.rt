//! What a body that lies in a pool promises: its charge, and one compact spelling that gives it back.
#![tactic(auto)]

ghost use Rattle.std.specs.Prelude.{◌≡◌, ◌≢◌, length, IfOk, IfSome, IfNone};

use std::alloc::{AllocError, Global};

#[cfg(test)]
mod tests;

/// A body that can lie in a pool, whole or in its compact spelling.
///
/// Each value has one spelling and no two values share one; a spelling has at least one byte, is at
/// most as long as the value's charge, and no charge is above 2^40 bytes.
pub trait Poolable: Sized {
    ghost use Rattle.std.specs.Prelude.{ℕ, List, ◌≤◌, ◌^◌};

    /// What the type keeps of each of its values, as the ranges of its numbers.
    ghost is_value: { Self → Type 0 };

    /// How many bytes the value is charged with where it lies whole.
    ghost charge_of: { Self → ℕ };

    /// The compact spelling's bytes.
    ghost encoding: { Self → List ℕ };

    /// The charge in bytes. It takes no memory.
    fn charge(&self) -> u64
        ensures charge { result ≡ charge_of self.now }
        ensures value { is_value self.now };

    /// How many bytes the compact spelling has. It takes no memory.
    fn compact_len(&self) -> u32
        ensures len { result ≡ length (encoding self.now) }
        ensures value { is_value self.now };

    /// The compact spelling. It fails only for want of memory.
    fn encode(&self, alloc: Global) -> Result<Vec<u8>, AllocError>
        ensures spelling { IfOk result (λ b. b.items ≡ encoding self.now) }
        ensures value { is_value self.now };

    /// The value with this spelling; `None` exactly where the bytes are no value's whole spelling. It
    /// fails only for want of memory.
    fn decode(alloc: Global, b: &[u8]) -> Result<Option<Self>, AllocError>
        ensures found { IfOk result (λ r. IfSome r (λ v. is_value v × (encoding v ≡ b.now))) }
        ensures absent { IfOk result (λ r. IfNone r ((v : Self) → is_value v → encoding v ≢ b.now)) };

    /// No two values have one spelling.
    ghost tells_apart: { (x y : Self) → is_value x → is_value y → encoding x ≡ encoding y → x ≡ y };

    /// A spelling is not empty and at most as long as the charge, which is at most 2^40.
    ghost bounds: { (x : Self) → is_value x → (1 ≤ length (encoding x)) × (length (encoding x) ≤ charge_of x) × (charge_of x ≤ 2 ^ 40) };
}

/// The value that the spelling of `v` gives back, which is `v`. It fails only for want of memory.
pub fn round_trip<T: Poolable>(alloc: Global, v: &T) -> Result<Option<T>, AllocError>
    ensures { IfOk result (λ r. r ≡ Some v.now) }
{
    let b = v.encode(alloc)?;
    T::decode(alloc, b.as_slice())
}
