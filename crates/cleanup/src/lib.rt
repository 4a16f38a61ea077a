//! Changes of one routine that take away what isn't needed: branches whose way is known, unreachable blocks, writes that
//! nobody reads, and jumps to blocks to which nothing else goes.
#![tactic(auto)]

mod bits;
mod branches;
mod dead;
mod live;
mod merge;
mod reach;
mod rounds;
mod unreachable;

pub use branches::{fold_branches, fold_branches_owned};
pub use dead::{drop_dead_writes, drop_dead_writes_owned};
pub use merge::{merge_blocks, merge_blocks_owned};
pub use rounds::{simplify, simplify_owned};
pub use unreachable::{drop_unreachable, drop_unreachable_owned};
