//! The types behind a lock and its passes.
ghost use Rattle.std.specs.Prelude.{◌≡◌};

use atomic_table::{Seat, Table, TableRule};
use std::alloc::Global;
use std::sync::atomic::AtomicU64;

/// A table of one word and one slot, and how many threads sleep on the word.
///
/// Its parameters stand as they are in the table's type: so it crosses threads wherever the state may.
#[derive(Drop)]
pub struct Turnstile<S, V, K, P: TableRule<S, V, K>> {
    pub(crate) table: Table<S, V, K, P, Global>,
    pub(crate) sleepers: AtomicU64,
    ghost one: { (table.shared.table_id.words ≡ 1) × (table.shared.table_id.slots ≡ 1) },
}

/// A seat at the table, and how many gives there had been when it last gave, modulo 2^63.
#[derive(Drop)]
pub struct Token<S, V> {
    pub(crate) seat: Seat<S, V>,
    pub(crate) given: u64,
}
