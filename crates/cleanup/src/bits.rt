//! Sets of registers as words of 64 bits.
ghost use Rattle.std.specs.Prelude.{◌≡◌, ℕ, ◌+◌, ◌*◌, ◌<◌, ◌≤◌, ◌&&◌, ◌||◌, length, not, nat_eq};
ghost use Rattle.il_core.specs.Meaning.{is_among};
ghost use Rattle.il_laws.specs.Live.{some_live};
ghost use Rattle.cleanup.specs.Bits.{has};

/// Whether a register is in a set.
pub(crate) fn is_in(set: &[u64], x: usize) -> bool
    requires { x < 64 * length set.now }
    ensures { result ≡ has set.now x }
{
    (set[x / 64] >> (x % 64)) & 1 == 1
}

/// Whether one of so many registers is in a set.
pub(crate) fn some_in(set: &[u64], first: u32, count: u32) -> bool
    requires { first + count ≤ 64 * length set.now }
    ensures { result ≡ some_live (has set.now) first count }
{
    for i in 0..count {
        if is_in(set, first as usize + i as usize) {
            return true;
        }
    }
    false
}

/// Puts a register into a set.
pub(crate) fn insert(set: &mut [u64], x: usize)
    requires { x < 64 * length set.old }
    ensures { (y : ℕ) → has set.new y ≡ (nat_eq y x || has set.old y) }
{
    set[x / 64] |= 1 << (x % 64);
}

/// Takes a register out of a set.
pub(crate) fn remove(set: &mut [u64], x: usize)
    requires { x < 64 * length set.old }
    ensures { (y : ℕ) → has set.new y ≡ (has set.old y && not (nat_eq y x)) }
{
    set[x / 64] &= !(1 << (x % 64));
}

/// Takes so many registers out of a set.
pub(crate) fn remove_row(set: &mut [u64], first: u32, count: u32)
    requires { first + count ≤ 64 * length set.old }
    ensures { (y : ℕ) → has set.new y ≡ (has set.old y && not (is_among first count y)) }
{
    for i in 0..count {
        remove(set, first as usize + i as usize);
    }
}

/// Puts all registers of another set into a set.
pub(crate) fn unite(set: &mut [u64], others: &[u64])
    requires { length others.now ≡ length set.old }
    ensures { (y : ℕ) → has set.new y ≡ (has others.now y || has set.old y) }
{
    for i in 0..set.len() {
        set[i] |= others[i];
    }
}
