//! Counts of a copy.
ghost use Rattle.std.specs.Prelude.{◌≡◌};
ghost use Rattle.profile.specs.Scaling.{scaled};

/// A count inside a routine, in the share that one call has of the routine's entries: `count * site / entry`, rounded
/// down and at most 4,294,967,295; 0 where the routine is never entered. It takes constant time.
pub fn scale(count: u32, site: u32, entry: u32) -> u32
    ensures { result ≡ scaled count site entry }
{
    if entry == 0 {
        return 0;
    }
    let share = u64::from(count) * u64::from(site) / u64::from(entry);
    share.min(u64::from(u32::MAX)) as u32
}
