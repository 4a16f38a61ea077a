//! A call that is inlined.

/// A call that is inlined: the caller's PID, the number of the call site among the caller's, from 0 on, and the callee's
/// PID.
#[derive(Clone, Copy, Debug, Drop, PartialEq, Eq)]
pub struct Choice {
    pub caller: u32,
    pub site: u32,
    pub callee: u32,
}
