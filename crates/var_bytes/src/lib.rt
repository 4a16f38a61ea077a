//! Numbers below 2^32 in one to five bytes: base 128, low part first, each byte but the last with its top
//! bit set, in the fewest bytes.
#![tactic(auto)]

ghost use Rattle.std.specs.Prelude.{◌≡◌, ℕ, ◌+◌, ◌%◌, ◌^◌, ◌<◌, ◌≤◌, List, length, take as front, drop, IfSome, IfNone, OnOk, OnErr};
ghost use Rattle.var_bytes.specs.Spelling.{IsSpelling, IsSpelledAt, Appends};

use std::alloc::AllocError;

/// Appends the spelling of a number. A refused call leaves the bytes as they were. It takes constant time,
/// on average.
pub fn put(out: &mut Vec<u8>, n: u32) -> Result<(), AllocError>
    ensures ok { OnOk result (Appends out.old.items out.new.items n) }
    ensures err { OnErr result (out.new.items ≡ out.old.items) }
{
    let second = n / 128;
    let third = second / 128;
    let fourth = third / 128;
    let fifth = fourth / 128;
    if second == 0 {
        out.extend_from_slice(&[n as u8])
    } else if third == 0 {
        out.extend_from_slice(&[more(n), second as u8])
    } else if fourth == 0 {
        out.extend_from_slice(&[more(n), more(second), third as u8])
    } else if fifth == 0 {
        out.extend_from_slice(&[more(n), more(second), more(third), fourth as u8])
    } else {
        let bytes = [
            more(n),
            more(second),
            more(third),
            more(fourth),
            fifth as u8,
        ];
        out.extend_from_slice(&bytes)
    }
}

/// The low seven bits, with the top bit that says that more follows.
fn more(n: u32) -> u8
    ensures { result ≡ n % 128 + 128 }
{
    (n % 128 + 128) as u8
}

/// How many bytes the spelling of a number takes, 1 to 5. It takes no memory.
pub fn len(n: u32) -> u32
    ensures { (bytes : List ℕ) → IsSpelling n bytes → result ≡ length bytes }
{
    if n < 128 {
        1
    } else if n < 16_384 {
        2
    } else if n < 2_097_152 {
        3
    } else if n < 268_435_456 {
        4
    } else {
        5
    }
}

/// Reads the number whose spelling begins at a place, and answers it with the place after it; none where
/// no spelling of a number below 2^32 begins there. It takes no memory and looks at five bytes at most.
#[tactic(auto, using(crate::proofs::Numbers::in_five))]
pub fn take(b: &[u8], at: usize) -> Option<(u32, usize)>
    requires { at ≤ length b.now }
    ensures word { IfSome result (λ x. x.0 < 2 ^ 32) }
    ensures within { IfSome result (λ x. x.1 ≤ length b.now) }
    ensures found { IfSome result (λ x. IsSpelledAt b.now at x.0 x.1) }
    ensures none { IfNone result ((n end : ℕ) → n < 2 ^ 32 → end ≤ length b.now → IsSpelledAt b.now at n end → ⊥) }
{
    let rest = &b[at..];
    let near = &rest[..rest.len().min(5)];
    let (number, count) = first_number(near)?;
    Some((number, at + count))
}

/// The number whose spelling is at the front of the bytes, and how many it takes.
#[tactic(auto, using(crate::proofs::Numbers::goes_on, crate::proofs::Numbers::one_more, crate::proofs::Numbers::one_number))]
fn first_number(bytes: &[u8]) -> Option<(u32, usize)>
    ensures some { IfSome result (λ x. 0 < x.1) }
    ensures within { IfSome result (λ x. x.1 ≤ length bytes.now) }
    ensures found { IfSome result (λ x. IsSpelling x.0 (front x.1 bytes.now)) }
    ensures none { IfNone result ((n k : ℕ) → n < 2 ^ 32 → IsSpelling n (front k bytes.now) → ⊥) }
{
    let (first, others) = bytes.split_first()?;
    if *first < 128 {
        return Some((u32::from(*first), 1));
    }
    let (rest, count) = first_number(others)?;
    if rest == 0 || rest >= 1 << 25 {
        return None;
    }
    Some((128 * rest + u32::from(*first - 128), count + 1))
}
