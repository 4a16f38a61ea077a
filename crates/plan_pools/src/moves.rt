//! Calls that go elsewhere.
use hlo_num::Seq;

/// The calls of a routine that go elsewhere.
#[derive(Drop)]
pub struct CallerMoves {
    pub caller: u32,
    /// Call sites, numbered from 0 in the order of the code, each with its new callee. Of several for one site the first
    /// one counts.
    pub moves: Seq<(u32, u32)>,
}
