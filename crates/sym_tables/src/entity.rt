//! What a program name stands for.
ghost use Rattle.std.specs.Prelude.{◌≡◌};
ghost use Rattle.sym_tables.specs.Entities.{compatible, composite, parameters, words, is_function, lacks_length, lengths_agree};

use hlo_num::{Seq, Ty};

/// What a program name stands for (ISO C90, 6.1.2.5). `fixed` is C's `const`.
#[derive(Drop)]
pub enum Entity {
    /// A function: the type of its value, if it has one, and the types of its parameters.
    Function {
        result: Option<Ty>,
        params: Seq<Ty>,
    },
    /// An object of one word.
    Scalar {
        ty: Ty,
        fixed: bool,
    },
    /// An array of so many elements, where the number is known.
    Array {
        ty: Ty,
        fixed: bool,
        len: Option<u32>,
    },
}

impl Entity {
    /// How many words an object of it has: none for a function, or while an array's length is unknown.
    pub fn words(&self) -> u32
        ensures { result ≡ words self.now }
    {
        match self {
            Entity::Function { .. } => 0,
            Entity::Scalar { .. } => 1,
            Entity::Array { len, .. } => len.unwrap_or(0),
        }
    }

    /// How many parameters a function has; none for an object.
    pub(crate) fn parameters(&self) -> usize
        ensures { result ≡ parameters self.now }
    {
        match self {
            Entity::Function { params, .. } => params.len(),
            _ => 0,
        }
    }

    pub(crate) fn is_function(&self) -> bool
        ensures { result ≡ is_function self.now }
    {
        matches!(self, Entity::Function { .. })
    }

    /// Whether it is an array of unknown length.
    pub(crate) fn lacks_length(&self) -> bool
        ensures { result ≡ lacks_length self.now }
    {
        matches!(self, Entity::Array { len: None, .. })
    }
}

/// Whether two declarations of one name may stand for one thing (ISO C90, 6.1.2.6).
pub fn compatible(a: &Entity, b: &Entity) -> bool
    ensures { result ≡ compatible a.now b.now }
{
    match (a, b) {
        (
            Entity::Function {
                result: gives,
                params,
            },
            Entity::Function {
                result: other_gives,
                params: other_params,
            },
        ) => *gives == *other_gives && params.as_slice() == other_params.as_slice(),
        (
            Entity::Scalar { ty, fixed },
            Entity::Scalar {
                ty: other_ty,
                fixed: other_fixed,
            },
        ) => *ty == *other_ty && *fixed == *other_fixed,
        (
            Entity::Array { ty, fixed, len },
            Entity::Array {
                ty: other_ty,
                fixed: other_fixed,
                len: other_len,
            },
        ) => *ty == *other_ty && *fixed == *other_fixed && lengths_agree(*len, *other_len),
        _ => false,
    }
}

fn lengths_agree(a: Option<u32>, b: Option<u32>) -> bool
    ensures { result ≡ lengths_agree a b }
{
    match (a, b) {
        (Some(n), Some(m)) => n == m,
        _ => true,
    }
}

/// What is known of a name after it was declared as both of these.
pub(crate) fn composite<'a>(known: &'a Entity, said: &'a Entity) -> &'a Entity
    ensures { result.now ≡ composite known.now said.now }
{
    if known.lacks_length() { said } else { known }
}
