//! The ranks of expressions.
ghost use Rattle.std.specs.Prelude.{◌≡◌};
ghost use Rattle.c_parse.specs.Ranks.{rank_of, operand_rank, level_below};

/// The ranks of expressions that are read, the loosest first (ISO C90, 6.3).
#[derive(Clone, Copy, Debug, PartialEq, Eq)]
pub enum Rank {
    Comma,
    Assignment,
    Conditional,
    Binary(Precedence),
    Cast,
    Unary,
}

/// The levels of the binary operators that group to the left (ISO C90, 6.3.5 to 6.3.14), the loosest first.
#[derive(Clone, Copy, Debug, PartialEq, Eq)]
pub enum Precedence {
    LogicalOr,
    LogicalAnd,
    Or,
    Xor,
    And,
    Equality,
    Relation,
    Shift,
    Sum,
    Product,
}

impl Precedence {
    /// The next level down, where there is one.
    pub fn tighter(self) -> Option<Precedence>
        ensures { result ≡ level_below self }
    {
        match self {
            Precedence::LogicalOr => Some(Precedence::LogicalAnd),
            Precedence::LogicalAnd => Some(Precedence::Or),
            Precedence::Or => Some(Precedence::Xor),
            Precedence::Xor => Some(Precedence::And),
            Precedence::And => Some(Precedence::Equality),
            Precedence::Equality => Some(Precedence::Relation),
            Precedence::Relation => Some(Precedence::Shift),
            Precedence::Shift => Some(Precedence::Sum),
            Precedence::Sum => Some(Precedence::Product),
            Precedence::Product => None,
        }
    }

    /// The rank of the operands on the right of an operator.
    pub fn operand(self) -> Rank
        ensures { rank_of result ≡ operand_rank self }
    {
        match self.tighter() {
            Some(q) => Rank::Binary(q),
            None => Rank::Cast,
        }
    }
}
