//! The names of a first program.
ghost use Rattle.std.specs.Prelude.{◌≡◌, ◌<◌, IfNone, IfOk, IfSome, nat_eq, nat_lt};
ghost use Rattle.std.specs.List.{AllByRecursion, list_any};
ghost use Rattle.il_core.specs.Limits.{IsPid};
ghost use Rattle.pass_laws.specs.Worth.{has_dollar, spendable};
ghost use Rattle.plan_driver.specs.Optimising.{first_free};

use hlo_num::Seq;
use il_core::{ShapeRow, Shapes, limits};
use std::alloc::{AllocError, Global};

/// Whether some of a budget is spent: there is one, and no name has a `$`.
pub(crate) fn spends(shapes: &Shapes, budget: u32) -> bool
    ensures { result ≡ nat_lt 0 (spendable shapes.now budget) }
{
    if has_dollars(shapes.rows.as_slice()) {
        return false;
    }
    budget > 0
}

/// Whether some name has a `$`.
fn has_dollars(rows: &[ShapeRow]) -> bool
    ensures { result ≡ list_any has_dollar rows.now }
{
    for row in rows {
        if has_dollar(row) {
            return true;
        }
    }
    false
}

/// Whether a row's name has a `$`.
fn has_dollar(row: &ShapeRow) -> bool
    ensures { result ≡ has_dollar row.now }
{
    is_marked(row.name.bytes())
}

/// Whether there is a `$` among bytes.
fn is_marked(bytes: &[u8]) -> bool
    ensures { result ≡ list_any (nat_eq 36) bytes.now }
{
    for byte in bytes {
        if b'$' == *byte {
            return true;
        }
    }
    false
}

/// The first number above all PIDs, unless one of them is above the limit of the language.
pub(crate) fn first_free(rows: &[ShapeRow]) -> Option<u32>
    ensures found { IfSome result (λ n. n ≡ first_free rows.now) }
    ensures none { IfNone result (AllByRecursion (λ row. IsPid row.pid) rows.now → ⊥) }
{
    let mut past = 0;
    for row in rows {
        if row.pid >= limits::PIDS {
            return None;
        }
        past = past.max(row.pid + 1);
    }
    Some(past)
}

/// A copy of the rows.
pub(crate) fn copied(alloc: Global, shapes: &Shapes) -> Result<Shapes, AllocError>
    ensures { IfOk result (λ s. s ≡ shapes.now) }
{
    let rows = copied_rows(alloc, shapes.rows.as_slice())?;
    Ok(Shapes {
        rows: Seq::from_vec(rows),
    })
}

/// Copies of rows.
fn copied_rows(alloc: Global, rows: &[ShapeRow]) -> Result<Vec<ShapeRow>, AllocError>
    ensures { IfOk result (λ v. v.items ≡ rows.now) }
{
    let mut copies = Vec::with_capacity(alloc, rows.len())?;
    for row in rows {
        copies.push(copied_row(row)?)?;
    }
    Ok(copies)
}

/// A copy of a row.
fn copied_row(row: &ShapeRow) -> Result<ShapeRow, AllocError>
    ensures { IfOk result (λ r. r ≡ row.now) }
{
    let name = row.name.clone()?;
    Ok(ShapeRow {
        pid: row.pid,
        name,
        shape: row.shape,
    })
}
