//! The typed form of expressions (ISO C90, 6.3): each name is bound, each operand has the type that its operator
//! asks for. An expression is typed once, so the walk takes time in proportion to the tree, besides the look-ups of
//! names.
ghost use Rattle.std.specs.Prelude.{◌≡◌, map};
ghost use Rattle.c_types.specs.ExpressionRules as rules;
ghost use Rattle.c_types.specs.Follows.{Follows};
ghost use Rattle.c_types.specs.Arms as specs;

use crate::binding::{Binding, Library};
use crate::checker::{Checker, broken};
use crate::conversion::{Target, Typed, Valued, converted, sorted};
use crate::fault::{TypeFault, TypeKind};
use crate::nodes::{self, Arms};
use crate::specifiers::Site;
use c_tree::{Expr, Identifier};
use c_typed::TypedExpr;
use hlo_num::Ty;
use sqlite_items::Items;

impl Checker {
    /// The arms of `?:`, which begin at these lines, converted to their common type; `VoidValue` where one of them
    /// alone is void.
    fn agreed(&self, yes_line: u32, yes: Typed, no_line: u32, no: Typed) -> Result<Arms, TypeFault>
        ensures { Follows (λ a. a) (specs.agreed yes_line yes no_line no) self.now result self.now }
    {
        match self.arms_type(yes_line, yes.ty, no_line, no.ty) {
            Ok(ty) => Ok(nodes::both_arms(self.alloc, ty, yes, no)?),
            Err(fault) => Err(fault),
        }
    }

    /// An expression with its type; the fault is that of the first rule that a part of it breaks.
    #[cycle(expressions)]
    pub(crate) fn typed(&mut self, e: &Expr) -> Result<Typed, TypeFault>
        ensures { Follows (λ t. t) (rules.typing e.now).typed self.old result self.new }
    {
        match e {
            Expr::Name(x) => self.name(x),
            Expr::Index { array, index } => {
                let t = self.element(false, array, index.get())?;
                Ok(nodes::read(t))
            }
            Expr::Call {
                function,
                arguments,
            } => {
                let b = self.find(function)?;
                self.call(function.line, b, arguments.as_slice())
            }
            Expr::Constant { value, ty, .. } => Ok(nodes::constant(*ty, *value)),
            Expr::Paren { inner, .. } => self.typed(inner.get()),
            Expr::Postfix { step, operand, .. } => {
                let t = self.target(operand.get(), operand.get().line())?;
                Ok(nodes::postfix(*step, t))
            }
            Expr::Prefix { step, operand, .. } => {
                let t = self.target(operand.get(), operand.get().line())?;
                Ok(nodes::prefix(*step, t))
            }
            Expr::Unary { op, operand, .. } => {
                let v = self.valued(operand.get())?;
                Ok(nodes::unary(self.alloc, *op, v)?)
            }
            Expr::Cast {
                specifiers,
                operand,
                ..
            } => {
                let to = self.specified(specifiers, Site::Cast)?;
                self.cast(to.ty, operand.get())
            }
            Expr::Binary {
                op,
                left,
                right,
                ..
            } => {
                let a = self.valued(left.get())?;
                let b = self.valued(right.get())?;
                Ok(nodes::binary(self.alloc, sorted(*op), a, b)?)
            }
            Expr::Conditional {
                condition,
                yes,
                no,
                ..
            } => {
                let c = self.valued(condition.get())?;
                let a = self.typed(yes.get())?;
                let arms = self.arms(yes.get().line(), a, no.get())?;
                Ok(nodes::conditional(self.alloc, c.expr, arms)?)
            }
            Expr::Assign {
                line,
                op,
                target,
                value,
            } => {
                let t = self.target(target.get(), target.get().line())?;
                let v = self.valued(value.get())?;
                self.assigned(*line, *op, t, v)
            }
            Expr::Comma { left, right, .. } => {
                let a = self.typed(left.get())?;
                let b = self.typed(right.get())?;
                Ok(nodes::comma(self.alloc, a, b)?)
            }
        }
    }

    /// An expression that has a value; `VoidValue` where it is void.
    #[cycle(expressions)]
    pub(crate) fn valued(&mut self, e: &Expr) -> Result<Valued, TypeFault>
        ensures { Follows (λ v. v) (rules.valued (rules.typing e.now)) self.old result self.new }
    {
        let t = self.typed(e)?;
        self.wanted(e.line(), t)
    }

    /// An expression as the target of an assignment or a step that begins at a line; parentheses are left aside.
    /// `NotLvalue` where it is no variable and no element, once it is typed.
    #[cycle(expressions)]
    fn target(&mut self, e: &Expr, whole: u32) -> Result<Target, TypeFault>
        ensures { Follows (λ t. t) ((rules.typing e.now).target whole) self.old result self.new }
    {
        match e {
            Expr::Name(x) => {
                let b = self.find(x)?;
                self.target_name(whole, x.line, b)
            }
            Expr::Index { array, index } => self.element(true, array, index.get()),
            Expr::Paren { inner, .. } => self.target(inner.get(), whole),
            Expr::Call { .. }
            | Expr::Constant { .. }
            | Expr::Postfix { .. }
            | Expr::Prefix { .. }
            | Expr::Unary { .. }
            | Expr::Cast { .. }
            | Expr::Binary { .. }
            | Expr::Conditional { .. }
            | Expr::Assign { .. }
            | Expr::Comma { .. } => {
                self.typed(e)?;
                Err(broken(whole, TypeKind::NotLvalue))
            }
        }
    }

    /// An element of an array, which is written or read.
    #[cycle(expressions)]
    fn element(
        &mut self,
        writes: bool,
        array: &Identifier,
        index: &Expr,
    ) -> Result<Target, TypeFault>
        ensures { Follows (λ t. t) (rules.element_of writes array.now (rules.typing index.now)) self.old result self.new }
    {
        let b = self.find(array)?;
        let s = self.subscripted(writes, array.line, b)?;
        let v = self.valued(index)?;
        Ok(nodes::element(self.alloc, s, v)?)
    }

    /// A call of what a name at a line is bound to. `NotFunction` where that is no function; `Arguments` where it has
    /// another number of parameters, before a fault in an argument.
    #[cycle(expressions)]
    fn call(&mut self, line: u32, b: Binding, es: &[Expr]) -> Result<Typed, TypeFault>
        ensures { Follows (λ t. t) (rules.call line b (map rules.typing es.now)) self.old result self.new }
    {
        match b {
            Binding::Library(Library::GetChar) => {
                if !es.is_empty() {
                    return Err(broken(line, TypeKind::Arguments));
                }
                Ok(nodes::get_char())
            }
            Binding::Library(Library::PutChar) => {
                let v = self.only_argument(line, es)?;
                Ok(nodes::put_char(self.alloc, v)?)
            }
            Binding::Library(Library::Exit) => {
                let v = self.only_argument(line, es)?;
                Ok(nodes::exit(self.alloc, v)?)
            }
            Binding::Function { pid, .. } => {
                let f = self.use_function(line, pid)?;
                if es.len() != f.params.len() {
                    return Err(broken(line, TypeKind::Arguments));
                }
                let arguments = self.arguments(f.params.as_slice(), es)?;
                Ok(nodes::call(f, arguments))
            }
            _ => Err(broken(line, TypeKind::NotFunction)),
        }
    }

    /// The argument of a function of the library that has one; `Arguments` where there is another number of them.
    #[cycle(expressions)]
    fn only_argument(&mut self, line: u32, es: &[Expr]) -> Result<Valued, TypeFault>
        ensures { Follows (λ v. v) (rules.only_argument line (map rules.typing es.now)) self.old result self.new }
    {
        match es {
            [e] => self.valued(e),
            _ => Err(broken(line, TypeKind::Arguments)),
        }
    }

    /// The arguments for parameters of these types, in order, each converted to its parameter's type.
    #[cycle(expressions)]
    fn arguments(&mut self, params: &[Ty], es: &[Expr]) -> Result<Items<TypedExpr>, TypeFault>
        ensures { Follows (λ v. v) (rules.arguments params.now (map rules.typing es.now)) self.old result self.new }
    {
        let mut out = Vec::with_capacity(self.alloc, es.len())?;
        let mut types = params;
        for e in es {
            let Some((ty, rest)) = types.split_first() else {
                break;
            };
            let v = self.valued(e)?;
            out.push(converted(self.alloc, *ty, v)?)?;
            types = rest;
        }
        Ok(Items::from_vec(out))
    }

    /// The arms of `?:`, where the first begins at a line and is typed; both are converted to their common type.
    /// `VoidValue` where one of them alone is void.
    #[cycle(expressions)]
    fn arms(&mut self, yes_line: u32, yes: Typed, no: &Expr) -> Result<Arms, TypeFault>
        ensures { Follows (λ a. a) (specs.behind_first yes_line yes (rules.typing no.now)) self.old result self.new }
    {
        let no_typed = self.typed(no)?;
        self.agreed(yes_line, yes, no.line(), no_typed)
    }

    /// A cast to a type, or to void, which takes any expression.
    #[cycle(expressions)]
    fn cast(&mut self, to: Option<Ty>, e: &Expr) -> Result<Typed, TypeFault>
        ensures { Follows (λ t. t) (rules.cast to (rules.typing e.now)) self.old result self.new }
    {
        match to {
            Some(ty) => {
                let v = self.valued(e)?;
                Ok(nodes::cast(self.alloc, ty, v)?)
            }
            None => {
                let t = self.typed(e)?;
                Ok(nodes::discard(self.alloc, t)?)
            }
        }
    }
}
