//! Filing bytes on a disk and fetching them again, with the SHA-256 (FIPS 180-4) that tells whether
//! they are the same.
#![tactic(auto)]

mod filing;
mod places;

pub use filing::{Filed, RepoFault, fetch, file};
