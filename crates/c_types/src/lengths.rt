//! Constant words, the lengths of arrays, and what a declarator says by its parts alone (ISO C90, 6.4, 6.5).
ghost use Rattle.std.specs.Prelude.{◌≡◌};
ghost use Rattle.c_types.specs.Follows.{Follows};
ghost use Rattle.c_types.specs.StatementRules as rules;

use crate::checker::{Checker, broken};
use crate::fault::{TypeFault, TypeKind};
use crate::specifiers::Specified;
use c_tree::{Declarator, Expr, Initialiser};
use hlo_num::Ty;
use il_core::limits;

impl Checker {
    /// The word of a constant expression; `ConstTrap` where it traps.
    pub(crate) fn constant_word(&mut self, e: &Expr) -> Result<u32, TypeFault>
        ensures { Follows (λ w. w) (rules.constant_word e.now) self.old result self.new }
    {
        let c = self.constant_valued(e)?;
        self.word_of(c.value)
    }

    /// The length of an array whose name stands at a line; `ArraySize` where no array has it.
    pub(crate) fn length_of(&mut self, line: u32, e: &Expr) -> Result<u32, TypeFault>
        ensures { Follows (λ n. n) (rules.length_of line e.now) self.old result self.new }
    {
        let n = self.constant_word(e)?;
        if !is_length(n as usize) {
            return Err(broken(line, TypeKind::ArraySize));
        }
        Ok(n)
    }

    /// The type of an object whose name stands at a line; `Specifiers` where that is void.
    pub(crate) fn value_type(&self, line: u32, ty: Option<Ty>) -> Result<Ty, TypeFault>
        ensures { Follows (λ t. t) (rules.value_type line ty) self.now result self.now }
    {
        match ty {
            Some(ty) => Ok(ty),
            None => Err(broken(line, TypeKind::Specifiers)),
        }
    }
}

/// Whether an array may have so many elements.
pub(crate) fn is_length(n: usize) -> bool
    ensures { result ≡ rules.is_length n }
{
    1 <= n && n <= limits::ELEMENTS as usize
}

/// The line of an initialiser's first token.
pub(crate) fn initialiser_line(i: &Initialiser) -> u32
    ensures { result ≡ rules.initialiser_line i.now }
{
    match i {
        Initialiser::Value(e) => e.line(),
        Initialiser::List { line, .. } => *line,
    }
}

/// Whether a declaration declares a name, or lists the constants of an enumeration.
pub(crate) fn declares(s: Specified, declarators: &[Declarator]) -> bool
    ensures { result ≡ rules.declares s declarators.now }
{
    s.lists || !declarators.is_empty()
}
