//! Constant expressions and specifiers, which lead to each other: a cast names a type, and an enumeration of a
//! type has values (ISO C90, 6.4 and 6.5.2).
ghost use Rattle.std.specs.Prelude.{◌≡◌, map, pos};
ghost use Rattle.c_types.specs.ExpressionRules as rules;
ghost use Rattle.c_types.specs.Follows.{Follows};
ghost use Rattle.c_types.specs.Rules.{in_order};
ghost use Rattle.c_types.specs.declared.specifiers.Part.TheVariants.{Listed};

use crate::checker::{Checker, broken};
use crate::conditions::{constant_binary, constant_unary};
use crate::constant::{Constant, ConstantValue, Evaluated, cast_value, chosen_value};
use crate::conversion::sorted;
use crate::fault::{TypeFault, TypeKind};
use crate::specifiers::{Part, Site, Specified, meaning};
use c_tree::{Enumerator, Expr, Specifier, Specifiers};
use hlo_num::Ty;

impl Checker {
    /// What an expression is where a constant is wanted.
    #[cycle(constants)]
    pub(crate) fn constant(&mut self, e: &Expr) -> Result<Constant, TypeFault>
        ensures { Follows (λ c. c) (rules.typing e.now).constant self.old result self.new }
    {
        match e {
            Expr::Name(x) => {
                let b = self.find(x)?;
                self.constant_name(x.line, b)
            }
            Expr::Index { array, .. } => {
                let b = self.find(array)?;
                self.constant_element(array.line, b)
            }
            Expr::Call { function, .. } => {
                self.find(function)?;
                Err(broken(function.line, TypeKind::NotConstant))
            }
            Expr::Constant { value, ty, .. } => Ok(Constant {
                ty: Some(*ty),
                value: Evaluated::Word(value.0),
            }),
            Expr::Paren { inner, .. } => self.constant(inner.get()),
            Expr::Postfix { line, operand, .. } | Expr::Prefix { line, operand, .. } => {
                self.constant(operand.get())?;
                Err(broken(*line, TypeKind::NotConstant))
            }
            Expr::Unary { line, op, operand } => {
                let v = self.constant_valued(operand.get())?;
                Ok(constant_unary(*line, *op, v))
            }
            Expr::Cast {
                specifiers,
                operand,
                ..
            } => {
                let to = self.specified(specifiers, Site::Cast)?;
                self.constant_cast(to.ty, operand.get())
            }
            Expr::Binary {
                line,
                op,
                left,
                right,
            } => {
                let a = self.constant_valued(left.get())?;
                let b = self.constant_valued(right.get())?;
                Ok(constant_binary(*line, sorted(*op), a, b))
            }
            Expr::Conditional {
                condition,
                yes,
                no,
                ..
            } => {
                let c = self.constant_valued(condition.get())?;
                let a = self.constant(yes.get())?;
                let b = self.constant(no.get())?;
                let ty = self.arms_type(yes.get().line(), a.ty, no.get().line(), b.ty)?;
                Ok(Constant {
                    ty,
                    value: chosen_value(c.value, a.value, b.value),
                })
            }
            Expr::Assign { line, target, .. } => {
                self.constant(target.get())?;
                Err(broken(*line, TypeKind::NotConstant))
            }
            Expr::Comma { line, left, right } => {
                self.constant(left.get())?;
                self.constant(right.get())?;
                Err(broken(*line, TypeKind::NotConstant))
            }
        }
    }

    /// A constant expression that has a value.
    #[cycle(constants)]
    pub(crate) fn constant_valued(&mut self, e: &Expr) -> Result<ConstantValue, TypeFault>
        ensures { Follows (λ v. v) (rules.constant_valued (rules.typing e.now)) self.old result self.new }
    {
        let c = self.constant(e)?;
        self.wanted_constant(e.line(), c)
    }

    /// A cast in a constant expression.
    #[cycle(constants)]
    fn constant_cast(&mut self, to: Option<Ty>, e: &Expr) -> Result<Constant, TypeFault>
        ensures { Follows (λ c. c) (rules.constant_cast to (rules.typing e.now)) self.old result self.new }
    {
        match to {
            None => {
                let c = self.constant(e)?;
                Ok(Constant {
                    ty: None,
                    value: c.value,
                })
            }
            Some(ty) => {
                let v = self.constant_valued(e)?;
                Ok(Constant {
                    ty: Some(ty),
                    value: cast_value(ty, v.value),
                })
            }
        }
    }

    /// What specifiers say at a place; `Specifiers` where they break the rule.
    #[cycle(constants)]
    pub(crate) fn specified(&mut self, s: &Specifiers, site: Site) -> Result<Specified, TypeFault>
        ensures { Follows (λ s. s) (rules.specifying s.now site) self.old result self.new }
    {
        let parts = self.parts(s.items.as_slice())?;
        match meaning(site, parts.as_slice()) {
            Some(said) => Ok(said),
            None => Err(broken(s.line, TypeKind::Specifiers)),
        }
    }

    /// Specifiers in order.
    #[cycle(constants)]
    fn parts(&mut self, items: &[Specifier]) -> Result<Vec<Part>, TypeFault>
        ensures { Follows (λ v. v.items) (in_order (map rules.reading items.now)) self.old result self.new }
    {
        let mut out = Vec::with_capacity(self.alloc, items.len())?;
        for item in items {
            let part = self.part(item)?;
            out.push(part)?;
        }
        Ok(out)
    }

    /// One specifier. An enumeration declares its tag and its constants.
    #[cycle(constants)]
    fn part(&mut self, s: &Specifier) -> Result<Part, TypeFault>
        ensures { Follows (λ p. p) (rules.reading s.now) self.old result self.new }
    {
        match s {
            Specifier::Word { word, .. } => Ok(Part::One(*word)),
            Specifier::EnumTag { tag, .. } => {
                self.use_tag(tag)?;
                Ok(Part::Tagged)
            }
            Specifier::Enum {
                tag,
                enumerators,
                ..
            } => {
                self.declare_optional_tag(tag)?;
                self.enumeration(enumerators.as_slice())?;
                Ok(Part::Listed)
            }
        }
    }

    /// The constants of an enumeration, in order.
    #[cycle(constants)]
    fn enumeration(&mut self, es: &[Enumerator]) -> Result<(), TypeFault>
        ensures { Follows (λ _. Listed) (rules.all_enumerators (pos 0) (map rules.enumerating es.now)) self.old result self.new }
    {
        let mut next = 0;
        for e in es {
            next = self.enumerator(e, next)?;
        }
        Ok(())
    }

    /// A constant of an enumeration, with the value of a next one: its own, or the one after the constant before.
    #[cycle(constants)]
    fn enumerator(&mut self, e: &Enumerator, next: i64) -> Result<i64, TypeFault>
        ensures { Follows (λ v. v) (rules.enumerating e.now next) self.old result self.new }
    {
        match &e.value {
            Some(value) => {
                let v = self.constant_valued(value.get())?;
                let w = self.word_of(v.value)?;
                self.declare_number(&e.name, v.ty, w)
            }
            None => self.declare_constant(&e.name, next),
        }
    }
}
