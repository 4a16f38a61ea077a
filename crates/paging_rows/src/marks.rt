//! A body of one byte.
ghost use Rattle.std.specs.Prelude.{◌≡◌};

use pool_laws::Poolable;
use std::alloc::{AllocError, Global};

/// A number that is charged with ten bytes, and spelled by one.
#[derive(Drop)]
pub(crate) struct Mark {
    pub number: u8,
}

impl Poolable for Mark {
    ghost use Rattle.std.specs.Prelude.{◌∷◌, [], ◌<◌};
    ghost use Rattle.std.proofs.Common.{rules};

    ghost is_value = { λ m. m.number < 256 };

    ghost charge_of = { λ _. 10 };

    ghost encoding = { λ m. m.number ∷ [] };

    fn charge(&self) -> u64 {
        let _number = self.number;
        10
    }

    fn compact_len(&self) -> u32 {
        let _number = self.number;
        1
    }

    fn encode(&self, alloc: Global) -> Result<Vec<u8>, AllocError> {
        let number = self.number;
        let mut b = Vec::with_capacity(alloc, 1)?;
        b.push(number)?;
        Ok(b)
    }

    fn decode(_alloc: Global, b: &[u8]) -> Result<Option<Mark>, AllocError> {
        Ok(match b {
            [number] => Some(Mark { number: *number }),
            _ => None,
        })
    }

    ghost tells_apart = { λ x y _ _ e. let p : x.number ≡ y.number = Prim.cc in λ i. record { number = p i } };

    ghost bounds = { λ x _. Prim.search rules };
}
