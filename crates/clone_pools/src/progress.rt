//! A plan on its way.
use clone_groups::CloneTable;
use clone_names::MadeClones;
use il_core::Shapes;

/// A plan on its way: the shapes of its program in pools, the PID that the next clone takes, all clones made so far, and the table of
/// those that stand.
#[derive(Drop)]
pub struct Progress {
    pub shapes: Shapes,
    pub next: u32,
    pub made: MadeClones,
    pub table: CloneTable,
}
