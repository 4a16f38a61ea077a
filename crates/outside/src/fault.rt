//! The answer of an object of the outside that failed.
use thiserror::Error;

/// The call failed. The object's count of faults, which never falls, rose in this call.
#[derive(Clone, Copy, Debug, Drop, PartialEq, Eq, Error)]
#[error("a call of the outside failed")]
pub struct Failed;
