//! The use of names in expressions: as a value, as a target, under a subscript, as a function (ISO C90, 6.3.1
//! to 6.3.4).
ghost use Rattle.std.specs.Prelude.{◌≡◌};
ghost use Rattle.c_types.specs.Follows.{Follows};
ghost use Rattle.c_types.specs.Uses as uses;

use crate::binding::{Binding, Extent};
use crate::checker::{Checker, broken};
use crate::conversion::{Target, Typed};
use crate::fault::{TypeFault, TypeKind};
use c_typed::{Array, Place, TypedExpr, Variable};
use hlo_num::{Seq, Ty};
use sym_tables::Entity;

/// An array under a subscript, with the type of its elements.
#[derive(Clone, Copy)]
pub struct Subscripted {
    pub array: Array,
    pub ty: Ty,
}

/// A function of the program that is called: its PID, the type of its value, and those of its parameters.
#[derive(Drop)]
pub struct Called {
    pub pid: u32,
    pub result: Option<Ty>,
    pub params: Seq<Ty>,
}

/// The value of a variable.
fn read(ty: Ty, variable: Variable) -> Typed
    ensures { result ≡ uses.read ty (uses.variable variable) }
{
    Typed {
        ty: Some(ty),
        expr: TypedExpr::Read {
            ty,
            place: Place::Variable(variable),
        },
    }
}

impl Checker {
    /// A variable as a target, whose name stands at a line; `ConstWrite` where it is `const`.
    fn written(
        &self,
        line: u32,
        fixed: bool,
        ty: Ty,
        variable: Variable,
    ) -> Result<Target, TypeFault>
        ensures { Follows (λ t. t) (uses.written line fixed ty variable) self.now result self.now }
    {
        if fixed {
            return Err(broken(line, TypeKind::ConstWrite));
        }
        Ok(Target {
            ty,
            place: Place::Variable(variable),
        })
    }

    /// A name as a value; `NotObject` where it is a function or an array.
    pub(crate) fn use_name(&mut self, line: u32, b: Binding) -> Result<Typed, TypeFault>
        ensures { Follows (λ t. t) (uses.use_name line b) self.old result self.new }
    {
        match b {
            Binding::Constant(value) => Ok(Typed {
                ty: Some(Ty::Int),
                expr: TypedExpr::Constant { ty: Ty::Int, value },
            }),
            Binding::Parameter { place, ty, .. } => Ok(read(ty, Variable::Parameter(place))),
            Binding::Local {
                place,
                ty,
                extent: Extent::Scalar,
                ..
            } => Ok(read(ty, Variable::Local(place))),
            Binding::Object {
                pid,
                ty,
                extent: Extent::Scalar,
                ..
            } => {
                self.use_pid(pid);
                Ok(read(ty, Variable::Object(pid)))
            }
            _ => Err(broken(line, TypeKind::NotObject)),
        }
    }

    /// A name as a target, where the whole target begins at a line and the name stands at another. `NotLvalue`
    /// where it is no variable, `ConstWrite` where it is `const`.
    pub(crate) fn target_name(
        &mut self,
        whole: u32,
        line: u32,
        b: Binding,
    ) -> Result<Target, TypeFault>
        ensures { Follows (λ t. t) (uses.target_name whole line b) self.old result self.new }
    {
        match b {
            Binding::Parameter { place, ty, fixed } => {
                self.written(line, fixed, ty, Variable::Parameter(place))
            }
            Binding::Local {
                place,
                ty,
                fixed,
                extent: Extent::Scalar,
            } => self.written(line, fixed, ty, Variable::Local(place)),
            Binding::Object {
                pid,
                ty,
                fixed,
                extent: Extent::Scalar,
                ..
            } => {
                let target = self.written(line, fixed, ty, Variable::Object(pid))?;
                self.use_pid(pid);
                Ok(target)
            }
            _ => Err(broken(whole, TypeKind::NotLvalue)),
        }
    }

    /// A name under a subscript, which is written or read. `NotObject` where it is no array, `ConstWrite` where
    /// what is written is `const`.
    pub(crate) fn subscripted(
        &mut self,
        writes: bool,
        line: u32,
        b: Binding,
    ) -> Result<Subscripted, TypeFault>
        ensures { Follows (λ s. s) (uses.subscripted writes line b) self.old result self.new }
    {
        match b {
            Binding::Local {
                place,
                ty,
                fixed,
                extent: Extent::Array(_),
            } => {
                if writes && fixed {
                    return Err(broken(line, TypeKind::ConstWrite));
                }
                Ok(Subscripted {
                    array: Array::Local(place),
                    ty,
                })
            }
            Binding::Object {
                pid,
                ty,
                fixed,
                extent: Extent::Array(_),
                ..
            } => {
                if writes && fixed {
                    return Err(broken(line, TypeKind::ConstWrite));
                }
                self.use_pid(pid);
                Ok(Subscripted {
                    array: Array::Object(pid),
                    ty,
                })
            }
            _ => Err(broken(line, TypeKind::NotObject)),
        }
    }

    /// The function of the program with this PID, called at a line. The types of its parameters are copied, so
    /// that arguments can be typed meanwhile.
    pub(crate) fn use_function(&mut self, line: u32, pid: u32) -> Result<Called, TypeFault>
        ensures { Follows (λ f. f) (uses.use_function line pid) self.old result self.new }
    {
        let Some(Entity::Function { result, params }) = self.syms.entity(pid) else {
            return Err(broken(line, TypeKind::NotFunction));
        };
        let called = Called {
            pid,
            result: *result,
            params: Seq::from_vec(Vec::from_slice(self.alloc, params.as_slice())?),
        };
        self.use_pid(pid);
        Ok(called)
    }
}
