//! Groups of call sites.

use hlo_num::{Seq, Word};

/// Call sites with one callee and the same known arguments, which go to one clone.
#[derive(Drop)]
pub struct Group {
    pub callee: u32,
    /// The parameters that the callee reads and that are known at these sites, rising, each with its constant.
    pub fixed: Seq<(u32, Word)>,
    /// The sites: their callers, and their numbers there, which begin at 0.
    pub members: Seq<(u32, u32)>,
    /// The PID of the clone: that of `old`, or what a new clone takes.
    pub clone: u32,
    /// The clone that the table has for these constants.
    pub old: Option<u32>,
}
