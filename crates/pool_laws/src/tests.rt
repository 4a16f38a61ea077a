//! A body of two numbers.
ghost use Rattle.std.specs.Prelude.{◌≡◌};

use crate::{Poolable, round_trip};
use std::alloc::{AllocError, Global};

/// Two bytes, spelled one after the other.
#[derive(Clone, Copy, PartialEq, Eq, Debug, Drop)]
struct Pair {
    first: u8,
    second: u8,
}

impl Poolable for Pair {
    ghost use Rattle.std.specs.Prelude.{◌∷◌, [], ◌<◌};
    ghost use Rattle.std.proofs.Common.{rules};

    ghost is_value = { λ p. (p.first < 256) × (p.second < 256) };

    ghost charge_of = { λ _. 10 };

    ghost encoding = { λ p. p.first ∷ p.second ∷ [] };

    fn charge(&self) -> u64 {
        let (_first, _second) = (self.first, self.second);
        10
    }

    fn compact_len(&self) -> u32 {
        let (_first, _second) = (self.first, self.second);
        2
    }

    fn encode(&self, alloc: Global) -> Result<Vec<u8>, AllocError> {
        let (first, second) = (self.first, self.second);
        let mut b = Vec::with_capacity(alloc, 2)?;
        b.push(first)?;
        b.push(second)?;
        Ok(b)
    }

    fn decode(_alloc: Global, b: &[u8]) -> Result<Option<Pair>, AllocError> {
        Ok(match b {
            [first, second] => Some(Pair {
                first: *first,
                second: *second,
            }),
            _ => None,
        })
    }

    ghost tells_apart = { λ x y _ _ e. let p : x.first ≡ y.first = Prim.cc in let q : x.second ≡ y.second = Prim.cc in λ i.
        record { first = p i; second = q i } };

    ghost bounds = { λ x _. Prim.search rules };
}

#[test]
fn pair_comes_back(rt: HostRuntime) {
    let pair = Pair {
        first: 7,
        second: 200,
    };
    assert_eq!(rt; pair.charge(), 10);
    assert_eq!(rt; pair.compact_len(), 2);
    let back = round_trip(rt.alloc(), &pair);
    assert!(rt;
        matches!(
            back,
            Ok(Some(Pair {
                first: 7,
                second: 200
            }))
        )
    );
    let long = Pair::decode(rt.alloc(), &[7, 200, 1]);
    assert!(rt; matches!(long, Ok(None)));
}
