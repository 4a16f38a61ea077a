//! The shapes and the objects of a program.
ghost use Rattle.std.specs.Prelude.{◌≡◌, ◌++◌, ◌≤◌, ◌<◌, ◌^◌, false, length, IfOk, OnOk};
ghost use Rattle.std.specs.List.{list_any, AllByRecursion, IsDistinct};
ghost use Rattle.std.specs.Map.{keys_of, values_of};
ghost use Rattle.il_core.specs.Limits.{max_names};
ghost use Rattle.sym_tables.specs.Entities.{parameters};
ghost use Rattle.sym_tables.specs.Listing.{is_object, objects, objects_at, shape_of, shapes, trimmed};
ghost use Rattle.sym_tables.specs.Sound.{FitsWords};
ghost use Rattle.sym_tables.specs.Table.{is_wide, same_name};

use crate::entity::Entity;
use crate::symbol::{Standing, Symbol};
use hlo_num::{Name, Seq, Word};
use il_core::{Object, Shape, ShapeRow};
use indexmap::IndexMap;
use std::alloc::{AllocError, Global};

/// One row for each name.
pub(crate) fn shape_rows(
    alloc: Global,
    symbols: &IndexMap<Name, Symbol>,
) -> Result<Vec<ShapeRow>, AllocError>
    requires few { length symbols.now.entries ≤ max_names }
    requires narrow { list_any is_wide (values_of symbols.now.entries) ≡ false }
    ensures rows { IfOk result (λ rows. rows.items ≡ shapes symbols.now.entries) }
    ensures distinct { IsDistinct same_name (keys_of symbols.now.entries) }
{
    let mut rows = Vec::with_capacity(alloc, symbols.len())?;
    for at in 0..symbols.len() {
        let (name, symbol) = symbols.get_index(at).unwrap();
        rows.push(ShapeRow {
            pid: at as u32,
            name: name.clone()?,
            shape: shape(&symbol.entity),
        })?;
    }
    Ok(rows)
}

fn shape(entity: &Entity) -> Shape
    requires { parameters entity.now < 2 ^ 32 }
    ensures { result ≡ shape_of entity.now }
{
    match entity {
        Entity::Function {
            result: gives,
            params,
        } => Shape::Routine {
            params: params.len() as u32,
            value: gives.is_some(),
        },
        _ => Shape::Object {
            words: entity.words(),
        },
    }
}

/// The defined and tentative objects.
pub(crate) fn objects_of(
    alloc: Global,
    symbols: &IndexMap<Name, Symbol>,
) -> Result<Vec<Object>, AllocError>
    requires few { length symbols.now.entries ≤ max_names }
    requires inits { AllByRecursion FitsWords (values_of symbols.now.entries) }
    ensures { IfOk result (λ objs. objs.items ≡ objects symbols.now.entries) }
{
    let mut objects = Vec::new(alloc);
    for at in 0..symbols.len() {
        let (_, symbol) = symbols.get_index(at).unwrap();
        push_object(alloc, &mut objects, at as u32, symbol)?;
    }
    Ok(objects)
}

/// Adds the object of a PID, if it is one.
fn push_object(
    alloc: Global,
    objects: &mut Vec<Object>,
    pid: u32,
    symbol: &Symbol,
) -> Result<(), AllocError>
    requires { FitsWords symbol.now }
    ensures { OnOk result (objects.new.items ≡ objects.old.items ++ objects_at pid symbol.now) }
{
    if !is_object(symbol) {
        return Ok(());
    }
    let init = Vec::from_slice(alloc, trimmed(symbol.init.as_slice()))?;
    objects.push(Object {
        pid,
        words: symbol.entity.words(),
        init: Seq::from_vec(init),
    })?;
    Ok(())
}

/// The words up to the last one that isn't 0.
fn trimmed(words: &[Word]) -> &[Word]
    ensures { result.now ≡ trimmed words.now }
{
    let mut kept = words.len();
    while kept > 0 && words[kept - 1].0 == 0 {
        kept -= 1;
    }
    &words[..kept]
}

fn is_object(symbol: &Symbol) -> bool
    ensures { result ≡ is_object symbol.now }
{
    symbol.standing != Standing::Declared && symbol.entity.words() > 0
}
