//! What is known of one name.
ghost use Rattle.std.specs.Prelude.{◌≡◌, Some};
ghost use Rattle.sym_tables.specs.Table.{given};
ghost use Rattle.sym_tables.specs.Symbols.{met, later, routine_part, element_part, is_open};

use crate::entity::Entity;
use hlo_num::{Seq, Word};

/// How far a name is defined (ISO C90, 6.7.2). A tentative definition counts as one with zeros unless a
/// definition comes.
#[derive(Clone, Copy, Debug, PartialEq, Eq)]
pub enum Standing {
    /// Only declared.
    Declared,
    /// Tentatively defined, and not defined.
    Tentative,
    /// Defined.
    Defined,
}

impl Standing {
    /// The further one of two.
    pub(crate) fn later(self, other: Standing) -> Standing
        ensures { result ≡ later self other }
    {
        match (self, other) {
            (Standing::Defined, _) | (_, Standing::Defined) => Standing::Defined,
            (Standing::Tentative, _) | (_, Standing::Tentative) => Standing::Tentative,
            _ => Standing::Declared,
        }
    }
}

/// What is known of one name.
#[derive(Drop)]
pub struct Symbol {
    pub entity: Entity,
    pub standing: Standing,
    /// The first words of a defined object, as they were given. The rest are 0.
    pub init: Seq<Word>,
    /// Whether an expression names it.
    pub used: bool,
}

impl Symbol {
    /// Takes in one more declaration or definition of the name. The words are those of a definition, and
    /// otherwise dropped.
    pub(crate) fn meet(&mut self, standing: Standing, said: Entity, init: Seq<Word>)
        ensures { self.new ≡ met standing said init (Some self.old) }
    {
        if self.entity.lacks_length() {
            self.entity = said;
        }
        self.standing = self.standing.later(standing);
        if standing == Standing::Defined {
            self.init = init;
        }
    }

    /// Takes in the initial words, as far as the entity has room for them.
    pub(crate) fn initialise(&mut self, init: Vec<Word>)
        ensures { self.new ≡ given init.items self.old }
    {
        let mut init = init;
        init.truncate(self.entity.words() as usize);
        self.init = Seq::from_vec(init);
    }

    /// Whether it is used and not defined.
    pub(crate) fn is_open(&self) -> bool
        ensures { result ≡ is_open self.now }
    {
        self.used && self.standing == Standing::Declared
    }
}

/// 1 for a routine of the program, which is a defined function, and otherwise 0.
pub(crate) fn routine_part(entity: &Entity, standing: Standing) -> u32
    ensures { result ≡ routine_part entity.now standing }
{
    (entity.is_function() && standing == Standing::Defined) as u32
}

/// The array elements of the program that a name has: those of a defined or tentative array, as far as
/// its length is known.
pub(crate) fn element_part(entity: &Entity, standing: Standing) -> u32
    ensures { result ≡ element_part entity.now standing }
{
    match entity {
        Entity::Array { len, .. } if standing != Standing::Declared => len.unwrap_or(0),
        _ => 0,
    }
}
