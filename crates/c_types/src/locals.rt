//! Declarations in blocks (ISO C90, 6.5 and 6.6.2).
ghost use Rattle.std.specs.Prelude.{◌≡◌};
ghost use Rattle.c_types.specs.Follows.{Follows};
ghost use Rattle.c_types.specs.StatementRules as rules;

use crate::binding::{Binding, Extent};
use crate::checker::{Checker, broken};
use crate::conversion::converted;
use crate::fault::{TypeFault, TypeKind};
use crate::lengths::{declares, initialiser_line};
use crate::specifiers::{Site, Specified};
use c_tree::{Declaration, Declarator, Initialiser, Shape};
use c_typed::{Local, TypedExpr, TypedStmt};
use hlo_num::Ty;

/// Whether a declarator declares a function.
fn is_function_shape(shape: &Shape) -> bool
    ensures { result ≡ rules.is_function_shape shape.now }
{
    matches!(shape, Shape::Function(_))
}

/// The length of an array.
fn length_in(extent: Extent) -> Option<u32>
    ensures { result ≡ rules.length_in extent }
{
    match extent {
        Extent::Scalar => None,
        Extent::Array(n) => n,
    }
}

impl Checker {
    /// Whether a local, whose name stands at a line, is a variable or an array, which has its length.
    /// `ArraySize` where no array has that length or none is given, `Specifiers` at a function.
    fn local_extent(&mut self, line: u32, shape: &Shape) -> Result<Extent, TypeFault>
        ensures { Follows (λ x. x) (rules.local_extent line shape.now) self.old result self.new }
    {
        match shape {
            Shape::Plain => Ok(Extent::Scalar),
            Shape::Array(None) => Err(broken(line, TypeKind::ArraySize)),
            Shape::Array(Some(e)) => {
                let n = self.length_of(line, e)?;
                Ok(Extent::Array(Some(n)))
            }
            Shape::Function(_) => Err(broken(line, TypeKind::Specifiers)),
        }
    }

    /// The initialiser of a local, converted to its type. `Initialiser` at an array, and at braces.
    fn local_value(
        &mut self,
        ty: Ty,
        extent: Extent,
        initialiser: &Option<Initialiser>,
    ) -> Result<Option<TypedExpr>, TypeFault>
        ensures { Follows (λ e. e) (rules.local_value ty extent initialiser.now) self.old result self.new }
    {
        let Some(i) = initialiser else {
            return Ok(None);
        };
        match (extent, i) {
            (Extent::Scalar, Initialiser::Value(e)) => {
                let v = self.valued(e)?;
                Ok(Some(converted(self.alloc, ty, v)?))
            }
            _ => Err(broken(initialiser_line(i), TypeKind::Initialiser)),
        }
    }

    /// A declarator in a block. Its name is in scope from its initialiser on. `Specifiers` at a function and at
    /// an object of type void, `ArraySize` at an array without a length that it may have, `Redeclared` where the
    /// block has the name, and what the initialiser breaks.
    fn declarator(&mut self, s: Specified, d: &Declarator) -> Result<TypedStmt, TypeFault>
        ensures { Follows (λ t. t) (rules.declarator s d.now) self.old result self.new }
    {
        let line = d.name.line;
        if is_function_shape(&d.shape) {
            return Err(broken(line, TypeKind::Specifiers));
        }
        let ty = self.value_type(line, s.ty)?;
        let extent = self.local_extent(line, &d.shape)?;
        if self.bound_here(&d.name.name).is_some() {
            return Err(broken(line, TypeKind::Redeclared));
        }
        let place = self.new_local(Local {
            ty,
            length: length_in(extent),
            name: d.name.name.clone()?,
        })?;
        self.bind(
            &d.name.name,
            Binding::Local {
                place,
                ty,
                fixed: s.fixed,
                extent,
            },
        )?;
        let initialiser = self.local_value(ty, extent, &d.initialiser)?;
        Ok(TypedStmt::Declaration {
            local: place,
            initialiser,
        })
    }

    /// Declarators in a block, in order.
    fn declarators(&mut self, s: Specified, ds: &[Declarator]) -> Result<Vec<TypedStmt>, TypeFault>
        ensures { Follows (λ v. v.items) (rules.declarators s ds.now) self.old result self.new }
    {
        let mut out = Vec::with_capacity(self.alloc, ds.len())?;
        for d in ds {
            let declared = self.declarator(s, d)?;
            out.push(declared)?;
        }
        Ok(out)
    }

    /// A declaration in a block; `Specifiers` where it declares nothing.
    fn declaration(&mut self, d: &Declaration) -> Result<Vec<TypedStmt>, TypeFault>
        ensures { Follows (λ v. v.items) (rules.declaration d.now) self.old result self.new }
    {
        let declarators = d.declarators.as_slice();
        let s = self.specified(&d.specifiers, Site::Block)?;
        if !declares(s, declarators) {
            return Err(broken(d.specifiers.line, TypeKind::Specifiers));
        }
        self.declarators(s, declarators)
    }

    /// The declarations of a block, in order.
    pub(crate) fn declarations(&mut self, ds: &[Declaration]) -> Result<Vec<TypedStmt>, TypeFault>
        ensures { Follows (λ v. v.items) (rules.declarations ds.now) self.old result self.new }
    {
        let mut out = Vec::new(self.alloc);
        for d in ds {
            let mut declared = self.declaration(d)?;
            out.append(&mut declared)?;
        }
        Ok(out)
    }
}
