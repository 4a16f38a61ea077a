//! The plan of a program in pools, within a budget.
#![tactic(auto)]

mod limits;
mod names;
mod optimising;
mod passing;
mod running;
mod starting;

pub use optimising::optimise;
pub use pass_laws::plan_is_worth;
pub use plan_pools::{PlanLoader, Planned, PrintFault, add_routine, print};
