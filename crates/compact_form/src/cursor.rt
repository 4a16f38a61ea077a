//! A place in the bytes that are read.
ghost use Rattle.std.specs.Prelude.{◌≡◌, ◌∷◌, [], ℕ, List, IfOk, IfErr, Err, None, Some};
ghost use Rattle.compact_form.specs.declared.fault.Fault.TheVariants.{Unreadable};
ghost use Rattle.compact_form.specs.Reading.{list_up_to, read_list, read_number, read_pair, read_triple};

use crate::fault::Fault;
use std::alloc::Global;
use var_bytes::take;

/// The bytes that are left.
#[derive(Clone, Copy)]
pub(crate) struct Cursor<'a> {
    pub(crate) rest: &'a [u8],
}

impl Cursor<'_> {
    /// Reads one byte.
    pub(crate) fn byte(&mut self) -> Result<u8, Fault>
        ensures found { IfOk result (λ b. self.old.rest.now ≡ b ∷ self.new.rest.now) }
        ensures none { IfErr result (λ e. (e ≡ Unreadable) × (self.old.rest.now ≡ [])) }
    {
        let Some((first, others)) = self.rest.split_first() else {
            return Err(Fault::Unreadable);
        };
        self.rest = others;
        Ok(*first)
    }

    /// Reads one number.
    pub(crate) fn number(&mut self) -> Result<u32, Fault>
        ensures found { IfOk result (λ n. read_number self.old.rest.now ≡ Some (n, self.new.rest.now)) }
        ensures none { IfErr result (λ e. (e ≡ Unreadable) × (read_number self.old.rest.now ≡ None)) }
    {
        let Some((number, end)) = take(self.rest, 0) else {
            return Err(Fault::Unreadable);
        };
        self.rest = &self.rest[end..];
        Ok(number)
    }

    /// Reads two numbers.
    pub(crate) fn pair(&mut self) -> Result<(u32, u32), Fault>
        ensures found { IfOk result (λ x. read_pair self.old.rest.now ≡ Some ((x.0, x.1), self.new.rest.now)) }
        ensures none { IfErr result (λ e. (e ≡ Unreadable) × (read_pair self.old.rest.now ≡ None)) }
    {
        let first = self.number()?;
        let second = self.number()?;
        Ok((first, second))
    }

    /// Reads three numbers.
    pub(crate) fn triple(&mut self) -> Result<(u32, u32, u32), Fault>
        ensures found { IfOk result (λ x. read_triple self.old.rest.now ≡ Some ((x.0, x.1, x.2), self.new.rest.now)) }
        ensures none { IfErr result (λ e. (e ≡ Unreadable) × (read_triple self.old.rest.now ≡ None)) }
    {
        let first = self.number()?;
        let (second, third) = self.pair()?;
        Ok((first, second, third))
    }

    /// Reads so many numbers, of which there may be so many at most.
    pub(crate) fn numbers(
        &mut self,
        alloc: Global,
        count: u32,
        most: u32,
    ) -> Result<Vec<u32>, Fault>
        ensures found { IfOk result (λ v. list_up_to read_number most count self.old.rest.now ≡ Some (v.items, self.new.rest.now)) }
        ensures none { result ≡ Err Unreadable → list_up_to read_number most count self.old.rest.now ≡ None }
    {
        if count > most {
            return Err(Fault::Unreadable);
        }
        let mut numbers = Vec::with_capacity(alloc, self.rest.len().min(count as usize))?;
        'items: for _ in 0..count {
            numbers.push(self.number()?)?;
        }
        Ok(numbers)
    }
}
