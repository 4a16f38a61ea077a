//! What is fixed for a function while its code is written.
ghost use Rattle.std.specs.Prelude.{◌≡◌};
ghost use Rattle.c_lower.specs.Settings.{fixed_of};

use c_typed::Local;
use hlo_num::Name;
use profile::Profile;

/// What is fixed for a function besides the registers of its locals.
#[derive(Drop)]
pub(crate) struct Setting<'a> {
    /// The function's locals, and how many arrays are before each of them, and in all.
    pub(crate) locals: &'a [Local],
    pub(crate) arrays: Vec<u32>,
    pub(crate) total: u32,
    /// Whether it gives a value.
    pub(crate) value: bool,
    /// The profile, and the function's name there.
    pub(crate) profile: &'a Profile,
    pub(crate) name: &'a Name,
}

impl Setting<'_> {
    /// The array of a local. It takes constant time.
    pub(crate) fn array(&self, local: u32) -> u32
        ensures { result ≡ (fixed_of self.now).array local }
    {
        match self.arrays.get(local as usize) {
            Some(number) => *number,
            None => self.total,
        }
    }

    /// Whether a local is an array. It takes constant time.
    pub(crate) fn is_array(&self, local: u32) -> bool
        ensures { result ≡ (fixed_of self.now).outline.is_array local }
    {
        match self.locals.get(local as usize) {
            Some(x) => x.length.is_some(),
            None => false,
        }
    }

    /// How often the profile counts a call site. It takes constant time.
    pub(crate) fn count(&self, site: u32) -> u32
        ensures { result ≡ (fixed_of self.now).count site }
    {
        self.profile.site(self.name, site)
    }
}
