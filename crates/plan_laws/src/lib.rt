//! The plan: which programs the optimiser makes one after the other, as a fold over programs that knows
//! no memory limit, worker or disk. The public functions have no bodies, and their contracts are its laws.
#![tactic(auto)]

mod choosing;
mod costs;
mod grouping;
mod meaning;
mod retiring;

pub use choosing::{choice_fits, levels_fall, ranking_is_only, waves_agree};
pub use costs::{budget_kept, limits_kept, numbers_known, passes_within};
pub use grouping::{group_ranking_is_only, groups_move};
pub use meaning::{final_keeps, plan_keeps, table_keeps};
pub use retiring::dead_known;
