//! The check of a module.
ghost use Rattle.std.specs.Prelude.{◌≡◌};
ghost use Rattle.c_types.specs.Follows.{Follows};
ghost use Rattle.c_types.specs.Typing as typing;
ghost use Rattle.c_types.specs.Typing.{Checks};

use crate::binding::{Binding, Extent};
use crate::checker::{Checker, broken};
use crate::fault::{TypeFault, TypeKind};
use c_tree::{Item, Module};
use c_typed::{TypedFunction, TypedModule};
use hlo_num::Seq;
use std::alloc::Global;
use std::mem;
use sym_tables::ProgramSyms;

/// Types the module with this number, counted from 1, and takes its names into those of the program. `At` is
/// the first rule that is broken, with its line; `Memory` is want of memory. On `Err` nothing is promised of
/// the names. It takes expected time in proportion to the module.
pub fn check(
    alloc: Global,
    m: &Module,
    number: u32,
    syms: &mut ProgramSyms,
) -> Result<TypedModule, TypeFault>
    ensures { Checks number m.now syms.old result syms.new }
{
    let before = mem::replace(syms, ProgramSyms::new(alloc));
    let mut checker = Checker::new(alloc, before);
    let checked = checker.typed_module(number, m);
    *syms = checker.into_syms();
    checked
}

/// Whether a name isn't that of an array whose length the module hasn't given.
fn has_length(b: Option<Binding>) -> bool
    ensures { result ≡ typing.has_length b }
{
    !matches!(
        b,
        Some(Binding::Object {
            extent: Extent::Array(None),
            ..
        })
    )
}

impl Checker {
    /// The items of a module in order, and then the lengths of its arrays.
    fn typed_module(&mut self, number: u32, m: &Module) -> Result<TypedModule, TypeFault>
        ensures { Follows (λ t. t) (typing.module_rules number m.now) self.old result self.new }
    {
        let functions = self.all_items(number, m.items.as_slice())?;
        self.all_lengths()?;
        Ok(TypedModule {
            functions: Seq::from_vec(functions),
        })
    }

    /// The items in order: headers, declarations, and the functions that are defined, which are given.
    fn all_items(&mut self, number: u32, items: &[Item]) -> Result<Vec<TypedFunction>, TypeFault>
        ensures { Follows (λ v. v.items) (typing.all_items number items.now) self.old result self.new }
    {
        let mut functions = Vec::new(self.alloc);
        for item in items {
            match item {
                Item::Include { header, .. } => self.include(*header)?,
                Item::Declaration(d) => self.file_declaration(number, d)?,
                Item::Function(f) => {
                    let t = self.function(number, f)?;
                    functions.push(t)?;
                }
            }
        }
        Ok(functions)
    }

    /// Each array that was declared tentatively has got its length; `ArraySize` where one hasn't.
    fn all_lengths(&self) -> Result<(), TypeFault>
        ensures { Follows (λ _. tt) (typing.all_lengths self.now.awaited) self.now result self.now }
    {
        for a in self.awaited() {
            if !has_length(self.bound_here(&a.name)) {
                return Err(broken(a.line, TypeKind::ArraySize));
            }
        }
        Ok(())
    }
}
