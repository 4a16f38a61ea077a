//! Rules of expressions that look at no part of the tree: what is wanted of a type, the names of constants, the
//! constants of enumerations.
ghost use Rattle.std.specs.Prelude.{◌≡◌, pos, ◌+ℤ◌};
ghost use Rattle.sym_tables.specs.Table.{same_name};
ghost use Rattle.c_types.specs.Constants as constants;
ghost use Rattle.c_types.specs.Conversions as conversions;
ghost use Rattle.c_types.specs.Enumerations as enumerations;
ghost use Rattle.c_types.specs.ExpressionRules as rules;
ghost use Rattle.c_types.specs.Follows.{Follows};

use crate::binding::{Binding, Extent};
use crate::checker::{Checker, broken};
use crate::constant::{
    Constant, ConstantValue, Evaluated, binary_value, is_signed, logical_value, unary_value,
};
use crate::conversion::{Operator, Target, Typed, Valued, common, left_type, sorted, unary_type};
use crate::fault::{TypeFault, TypeKind};
use crate::nodes;
use c_tree::{Identifier, UnaryOp};
use hlo_num::{Name, Ty, Word};

impl Checker {
    /// A name as a value.
    pub(crate) fn name(&mut self, x: &Identifier) -> Result<Typed, TypeFault>
        ensures { Follows (λ t. t) (rules.named x.now) self.old result self.new }
    {
        let b = self.find(x)?;
        self.use_name(x.line, b)
    }

    /// A value is wanted of the expression that begins at a line; `VoidValue` where it has none.
    pub(crate) fn wanted(&self, line: u32, t: Typed) -> Result<Valued, TypeFault>
        ensures { Follows (λ v. v) (rules.valued_of line t) self.now result self.now }
    {
        match t.ty {
            Some(ty) => Ok(Valued { ty, expr: t.expr }),
            None => Err(broken(line, TypeKind::VoidValue)),
        }
    }

    /// The same of a constant expression.
    pub(crate) fn wanted_constant(&self, line: u32, c: Constant) -> Result<ConstantValue, TypeFault>
        ensures { Follows (λ v. v) (rules.constant_valued_of line c) self.now result self.now }
    {
        match c.ty {
            Some(ty) => Ok(ConstantValue { ty, value: c.value }),
            None => Err(broken(line, TypeKind::VoidValue)),
        }
    }

    /// The type of the arms of `?:`, which begin at these lines: both are void, or none.
    pub(crate) fn arms_type(
        &self,
        yes_line: u32,
        yes: Option<Ty>,
        no_line: u32,
        no: Option<Ty>,
    ) -> Result<Option<Ty>, TypeFault>
        ensures { Follows (λ t. t) (conversions.arms_type yes_line yes no_line no) self.now result self.now }
    {
        match (yes, no) {
            (None, None) => Ok(None),
            (None, Some(_)) => Err(broken(yes_line, TypeKind::VoidValue)),
            (Some(_), None) => Err(broken(no_line, TypeKind::VoidValue)),
            (Some(a), Some(b)) => Ok(Some(common(a, b))),
        }
    }

    /// A name in a constant expression; `NotConstant` where it is none.
    pub(crate) fn constant_name(&self, line: u32, b: Binding) -> Result<Constant, TypeFault>
        ensures { Follows (λ c. c) (constants.constant_name line b) self.now result self.now }
    {
        match b {
            Binding::Constant(w) => Ok(Constant {
                ty: Some(Ty::Int),
                value: Evaluated::Word(w.0),
            }),
            _ => Err(broken(line, TypeKind::NotConstant)),
        }
    }

    /// A name under a subscript in a constant expression, which is never constant.
    pub(crate) fn constant_element(&self, line: u32, b: Binding) -> Result<Constant, TypeFault>
        ensures { Follows (λ c. c) (constants.constant_element line b) self.now result self.now }
    {
        match b {
            Binding::Object {
                extent: Extent::Array(_),
                ..
            }
            | Binding::Local {
                extent: Extent::Array(_),
                ..
            } => Err(broken(line, TypeKind::NotConstant)),
            _ => Err(broken(line, TypeKind::NotObject)),
        }
    }

    /// An assignment, or a compound one. No operator that may skip its right operand assigns; a tree with one
    /// is refused as `NotLvalue`.
    pub(crate) fn assigned(
        &self,
        line: u32,
        op: Option<c_tree::BinaryOp>,
        t: Target,
        v: Valued,
    ) -> Result<Typed, TypeFault>
        ensures { Follows (λ t. t) (rules.assignment line op t v) self.now result self.now }
    {
        match op {
            None => Ok(nodes::assign(self.alloc, t, v)?),
            Some(op) => match sorted(op) {
                Operator::Working(op) => Ok(nodes::compound(self.alloc, op, t, v)?),
                Operator::Skipping(_) => Err(broken(line, TypeKind::NotLvalue)),
            },
        }
    }

    /// The word of a constant expression; `ConstTrap` where it traps.
    pub(crate) fn word_of(&self, value: Evaluated) -> Result<u32, TypeFault>
        ensures { Follows (λ w. w) (constants.word_of_value value) self.now result self.now }
    {
        match value {
            Evaluated::Word(w) => Ok(w),
            Evaluated::Traps(line) => Err(broken(line, TypeKind::ConstTrap)),
        }
    }

    /// Declares an enumeration's tag, if it has one.
    pub(crate) fn declare_optional_tag(&mut self, tag: &Option<Identifier>) -> Result<(), TypeFault>
        ensures { Follows (λ _. tt) (rules.declare_optional_tag tag.now) self.old result self.new }
    {
        match tag {
            Some(tag) => self.declare_tag(tag),
            None => Ok(()),
        }
    }

    /// Declares the constant that has the value of this word in a type.
    pub(crate) fn declare_number(
        &mut self,
        x: &Identifier,
        ty: Ty,
        w: u32,
    ) -> Result<i64, TypeFault>
        ensures { Follows (λ n. n) (enumerations.enumerator x.now (enumerations.value_in ty w)) self.old result self.new }
    {
        self.declare_constant(x, number(ty, w))
    }

    /// Declares the constant of this value, and gives the value of a next one. `Library` where it has the name
    /// of the library's at file scope, `Redeclared` where the scope has the name, `EnumRange` where int doesn't
    /// hold the value.
    pub(crate) fn declare_constant(&mut self, x: &Identifier, v: i64) -> Result<i64, TypeFault>
        ensures { Follows (λ n. n) (enumerations.enumerator x.now v) self.old result self.new }
    {
        if self.is_at_file_scope() & is_library(&x.name) {
            return Err(broken(x.line, TypeKind::Library));
        }
        if self.bound_here(&x.name).is_some() {
            return Err(broken(x.line, TypeKind::Redeclared));
        }
        if v < -2_147_483_648 {
            return Err(broken(x.line, TypeKind::EnumRange));
        }
        if v > 2_147_483_647 {
            return Err(broken(x.line, TypeKind::EnumRange));
        }
        let word = Word((v as i32).cast_unsigned());
        self.bind(&x.name, Binding::Constant(word))?;
        Ok(v + 1)
    }
}

pub(crate) fn is_same(a: &[u8], b: &[u8]) -> bool
    ensures { result ≡ same_name a.now b.now }
{
    a == b
}

/// Whether the library declares this name.
pub(crate) fn is_library(name: &Name) -> bool
    ensures { result ≡ enumerations.is_library name.now }
{
    let name = name.bytes();
    is_same(b"getchar".as_slice(), name)
        | is_same(b"putchar".as_slice(), name)
        | is_same(b"exit".as_slice(), name)
        | is_same(b"EOF".as_slice(), name)
}

/// The number that a word of a type stands for.
pub(crate) fn number(ty: Ty, w: u32) -> i64
    ensures { result ≡ enumerations.value_in ty w }
{
    if is_signed(ty) {
        w.cast_signed() as i64
    } else {
        w as i64
    }
}

/// `+e`, `-e`, `~e` and `!e` in a constant expression.
pub(crate) fn constant_unary(line: u32, op: UnaryOp, v: ConstantValue) -> Constant
    ensures { result ≡ rules.constant_unary line op v }
{
    let ty = unary_type(op, v.ty);
    Constant {
        ty: Some(ty),
        value: unary_value(line, op, ty, v.value),
    }
}

/// `a op b` in a constant expression.
pub(crate) fn constant_binary(
    line: u32,
    op: Operator,
    a: ConstantValue,
    b: ConstantValue,
) -> Constant
    ensures { result ≡ rules.constant_binary line op a b }
{
    match op {
        Operator::Skipping(op) => Constant {
            ty: Some(Ty::Int),
            value: logical_value(op, a.value, b.value),
        },
        Operator::Working(op) => Constant {
            ty: Some(op.result_type(left_type(op, a.ty, b.ty))),
            value: binary_value(line, op, a, b),
        },
    }
}
