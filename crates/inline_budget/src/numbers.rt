//! What the limits of a routine speak of.
ghost use Rattle.std.specs.Prelude.{◌≡◌, ◌-◌, ◌*◌, ◌≤◌, ◌^◌};
ghost use Rattle.il_core.specs.Limits.{max_size};
ghost use Rattle.plan_laws.specs.Numbers.{is_within};
ghost use Rattle.inline_budget.specs.Attempts.{AreFew, IsWithin, grown, plain};

use il_core::limits;

/// A routine's size, and how many registers, local arrays and elements of these it has.
#[derive(Clone, Copy, Drop)]
pub(crate) struct Numbers {
    pub size: u64,
    pub regs: u64,
    pub arrays: u64,
    pub elements: u64,
}

/// With other numbers so many times.
pub(crate) fn grown(numbers: Numbers, by: Numbers, times: u64) -> Numbers
    requires numbers { IsWithin numbers }
    requires by { AreFew by }
    requires times { times ≤ 2 * max_size }
    ensures grown { result ≡ grown numbers by times }
    ensures size { result.size ≤ 2 ^ 63 }
{
    Numbers {
        size: numbers.size + by.size * times,
        regs: numbers.regs + by.regs * times,
        arrays: numbers.arrays + by.arrays * times,
        elements: numbers.elements + by.elements * times,
    }
}

/// Whether numbers are within the limits of the language.
pub(crate) fn is_within(numbers: Numbers) -> bool
    ensures { result ≡ is_within (plain numbers) }
{
    numbers.size <= u64::from(limits::SIZE)
        && numbers.regs <= u64::from(limits::REGISTERS)
        && numbers.arrays <= u64::from(limits::ARRAYS)
        && numbers.elements <= u64::from(limits::ELEMENTS)
}

/// How much the square of a size rises.
pub(crate) fn rise(old: u64, now: u64) -> u64
    requires old { old ≤ now }
    requires now { now ≤ max_size }
    ensures { result ≡ now ^ 2 - old ^ 2 }
{
    now * now - old * old
}
