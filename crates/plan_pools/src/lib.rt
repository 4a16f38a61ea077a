//! A program's routines in pools: they are added, cloned, retargeted, simplified, looked at, inlined and printed there, and
//! dead ones go.
#![tactic(auto)]

mod accepted;
mod adding;
mod callers;
mod clones;
mod dropping;
mod inlining;
mod laws;
mod moves;
mod noting;
mod planned;
mod planning;
mod pools;
mod printing;
mod pruning;
mod replacing;
mod retargeting;
mod seeing;
mod simplifying;
mod sites;
mod splices;
mod stopping;
mod waving;

pub use adding::add_clone;
pub use clones::NewClone;
pub use dropping::drop_all;
pub use inlining::inline_program;
pub use laws::{moves_retarget, pass_at_zero, plan_at_zero};
pub use moves::CallerMoves;
pub use noting::note;
pub use planned::Planned;
pub use planning::{optimise_at_zero, simplify_noted};
pub use pools::{PlanLoader, add_routine};
pub use printing::{PrintFault, print};
pub use pruning::prune_noted;
pub use retargeting::retarget_program;
pub use seeing::summarise_program;
pub use simplifying::{pids_of, simplify_program, stands};
pub use stopping::stop;
