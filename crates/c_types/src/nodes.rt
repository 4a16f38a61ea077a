//! The nodes of typed expressions, with the conversions of their operands.
ghost use Rattle.std.specs.Prelude.{◌≡◌, IfOk, Some};
ghost use Rattle.c_types.specs.ExpressionRules as rules;
ghost use Rattle.c_types.specs.Conversions as specs;
ghost use Rattle.c_types.specs.Uses as uses;

use crate::conversion::{
    Operator, Target, Typed, Valued, arm, converted, left_type, operand_type, right_type,
    unary_type,
};
use crate::uses::{Called, Subscripted};
use c_tree::{Step, UnaryOp};
use c_typed::{BinaryOp, Place, TypedExpr};
use hlo_num::{Ty, Word};
use sqlite_items::{Boxed, Items};
use std::alloc::{AllocError, Global};

/// The value of a variable or an element.
pub(crate) fn read(t: Target) -> Typed
    ensures { result ≡ uses.read t.ty t.place }
{
    Typed {
        ty: Some(t.ty),
        expr: TypedExpr::Read {
            ty: t.ty,
            place: t.place,
        },
    }
}

/// An element of an array.
pub(crate) fn element(alloc: Global, s: Subscripted, index: Valued) -> Result<Target, AllocError>
    ensures { IfOk result (λ t. (t.ty ≡ s.ty) × (t.place ≡ uses.element s.array index.expr)) }
{
    Ok(Target {
        ty: s.ty,
        place: Place::Element {
            array: s.array,
            index: Boxed::new(alloc, index.expr)?,
        },
    })
}

/// `+e`, `-e`, `~e` and `!e`
pub(crate) fn unary(alloc: Global, op: UnaryOp, v: Valued) -> Result<Typed, AllocError>
    ensures { IfOk result (λ t. t ≡ rules.unary_node op v) }
{
    let ty = unary_type(op, v.ty);
    let operand = converted(alloc, operand_type(op, v.ty), v)?;
    Ok(Typed {
        ty: Some(ty),
        expr: TypedExpr::Unary {
            ty,
            op,
            operand: Boxed::new(alloc, operand)?,
        },
    })
}

/// `a op b`
pub(crate) fn binary(alloc: Global, op: Operator, a: Valued, b: Valued) -> Result<Typed, AllocError>
    ensures { IfOk result (λ t. t ≡ rules.binary op a b) }
{
    match op {
        Operator::Skipping(op) => Ok(Typed {
            ty: Some(Ty::Int),
            expr: TypedExpr::Logical {
                op,
                left: Boxed::new(alloc, a.expr)?,
                right: Boxed::new(alloc, b.expr)?,
            },
        }),
        Operator::Working(op) => working(alloc, op, a, b),
    }
}

/// `a op b`, where both are evaluated.
fn working(alloc: Global, op: BinaryOp, a: Valued, b: Valued) -> Result<Typed, AllocError>
    ensures { IfOk result (λ t. t ≡ rules.working_node op a b) }
{
    let ty = left_type(op, a.ty, b.ty);
    let right_ty = right_type(op, a.ty, b.ty);
    let result = op.result_type(ty);
    let left = converted(alloc, ty, a)?;
    let right = converted(alloc, right_ty, b)?;
    Ok(Typed {
        ty: Some(result),
        expr: TypedExpr::Binary {
            ty,
            op,
            left: Boxed::new(alloc, left)?,
            right: Boxed::new(alloc, right)?,
        },
    })
}

/// The arms of `?:`, converted to the type of both where they have one.
#[derive(Drop)]
pub struct Arms {
    pub ty: Option<Ty>,
    pub yes: Boxed<TypedExpr>,
    pub no: Boxed<TypedExpr>,
}

/// Both arms of `?:`.
pub(crate) fn both_arms(
    alloc: Global,
    ty: Option<Ty>,
    a: Typed,
    b: Typed,
) -> Result<Arms, AllocError>
    ensures { IfOk result (λ x. x ≡ rules.both_arms ty a b) }
{
    let yes = boxed_arm(alloc, ty, a)?;
    let no = boxed_arm(alloc, ty, b)?;
    Ok(Arms { ty, yes, no })
}

fn boxed_arm(alloc: Global, ty: Option<Ty>, a: Typed) -> Result<Boxed<TypedExpr>, AllocError>
    ensures { IfOk result (λ x. x ≡ specs.arm ty a.ty a.expr) }
{
    let e = arm(alloc, ty, a)?;
    Boxed::new(alloc, e)
}

/// `c ? a : b`
pub(crate) fn conditional(alloc: Global, c: TypedExpr, arms: Arms) -> Result<Typed, AllocError>
    ensures { IfOk result (λ t. t ≡ rules.conditional_node c arms) }
{
    let condition = Boxed::new(alloc, c)?;
    Ok(Typed {
        ty: arms.ty,
        expr: TypedExpr::Conditional {
            ty: arms.ty,
            condition,
            yes: arms.yes,
            no: arms.no,
        },
    })
}

/// `a, b`
pub(crate) fn comma(alloc: Global, a: Typed, b: Typed) -> Result<Typed, AllocError>
    ensures { IfOk result (λ t. t ≡ rules.comma_node a b) }
{
    Ok(Typed {
        ty: b.ty,
        expr: TypedExpr::Comma {
            ty: b.ty,
            left: Boxed::new(alloc, a.expr)?,
            right: Boxed::new(alloc, b.expr)?,
        },
    })
}

/// `p = e`
pub(crate) fn assign(alloc: Global, t: Target, v: Valued) -> Result<Typed, AllocError>
    ensures { IfOk result (λ e. e ≡ rules.assign_node t v) }
{
    let value = converted(alloc, t.ty, v)?;
    Ok(Typed {
        ty: Some(t.ty),
        expr: TypedExpr::Assign {
            ty: t.ty,
            target: t.place,
            value: Boxed::new(alloc, value)?,
        },
    })
}

/// `p op= e`
pub(crate) fn compound(
    alloc: Global,
    op: BinaryOp,
    t: Target,
    v: Valued,
) -> Result<Typed, AllocError>
    ensures { IfOk result (λ e. e ≡ rules.compound_node op t v) }
{
    let operands = left_type(op, t.ty, v.ty);
    let value = converted(alloc, right_type(op, t.ty, v.ty), v)?;
    Ok(Typed {
        ty: Some(t.ty),
        expr: TypedExpr::Compound {
            ty: t.ty,
            op,
            operands,
            target: t.place,
            value: Boxed::new(alloc, value)?,
        },
    })
}

/// `(type) e`, for a type of a value.
pub(crate) fn cast(alloc: Global, ty: Ty, v: Valued) -> Result<Typed, AllocError>
    ensures { IfOk result (λ e. e ≡ rules.cast_node ty v) }
{
    Ok(Typed {
        ty: Some(ty),
        expr: converted(alloc, ty, v)?,
    })
}

/// A constant.
pub(crate) fn constant(ty: Ty, value: Word) -> Typed
    ensures { result ≡ rules.constant_node ty value }
{
    Typed {
        ty: Some(ty),
        expr: TypedExpr::Constant { ty, value },
    }
}

/// `p++` and `p--`
pub(crate) fn postfix(step: Step, t: Target) -> Typed
    ensures { result ≡ rules.postfix_node step t }
{
    Typed {
        ty: Some(t.ty),
        expr: TypedExpr::Postfix {
            ty: t.ty,
            step,
            target: t.place,
        },
    }
}

/// `++p` and `--p`
pub(crate) fn prefix(step: Step, t: Target) -> Typed
    ensures { result ≡ rules.prefix_node step t }
{
    Typed {
        ty: Some(t.ty),
        expr: TypedExpr::Prefix {
            ty: t.ty,
            step,
            target: t.place,
        },
    }
}

/// `(void) e`
pub(crate) fn discard(alloc: Global, t: Typed) -> Result<Typed, AllocError>
    ensures { IfOk result (λ e. e ≡ rules.discard_node t) }
{
    Ok(Typed {
        ty: None,
        expr: TypedExpr::Discard {
            operand: Boxed::new(alloc, t.expr)?,
        },
    })
}

/// A call of a function of the program.
pub(crate) fn call(f: Called, arguments: Items<TypedExpr>) -> Typed
    ensures { result ≡ rules.call_node f arguments }
{
    Typed {
        ty: f.result,
        expr: TypedExpr::Call {
            ty: f.result,
            function: f.pid,
            arguments,
        },
    }
}

/// `getchar()`
pub(crate) fn get_char() -> Typed
    ensures { result ≡ rules.get_char_node }
{
    Typed {
        ty: Some(Ty::Int),
        expr: TypedExpr::GetChar,
    }
}

/// `putchar(e)`
pub(crate) fn put_char(alloc: Global, v: Valued) -> Result<Typed, AllocError>
    ensures { IfOk result (λ e. e ≡ rules.put_char_node v) }
{
    let argument = converted(alloc, Ty::Int, v)?;
    Ok(Typed {
        ty: Some(Ty::Int),
        expr: TypedExpr::PutChar {
            argument: Boxed::new(alloc, argument)?,
        },
    })
}

/// `exit(e)`
pub(crate) fn exit(alloc: Global, v: Valued) -> Result<Typed, AllocError>
    ensures { IfOk result (λ e. e ≡ rules.exit_node v) }
{
    let argument = converted(alloc, Ty::Int, v)?;
    Ok(Typed {
        ty: None,
        expr: TypedExpr::Exit {
            argument: Boxed::new(alloc, argument)?,
        },
    })
}
