//! The words of each command, read to settings.
#![tactic(auto)]

mod file_name;
mod line;
mod number;
mod read;
mod settings;

pub use file_name::FileName;
pub use read::{read_check, read_opt, read_run, read_runil, read_train};
pub use settings::{CheckSettings, OptSettings, RunIlSettings, RunSettings, WordsFault};
