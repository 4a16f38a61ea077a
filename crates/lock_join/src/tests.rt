use crate::{count, count_in_order};
use std::process::Abort;

#[test]
fn workers_by_repeated_halving_lose_no_addition(rt: HostRuntime) {
    for (workers, times) in [(1, 1), (2, 1000), (3, 1000), (8, 1000)] {
        let number = count(&rt, rt.alloc(), workers, times).expect(&rt, "memory");
        assert_eq!(rt; number, u64::from(workers) * times);
    }
}

#[test]
fn a_pass_rests_until_another_gave(rt: HostRuntime) {
    for _ in 0..100u32 {
        let (number, found) = count_in_order(&rt, rt.alloc()).expect(&rt, "memory");
        assert_eq!(rt; number, 2);
        // The one that rests would be the first to add, as the thread of the other has yet to start.
        assert_eq!(rt; found, 1);
    }
}
