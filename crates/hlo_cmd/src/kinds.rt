//! The names of kinds, as lines tell them.
ghost use Rattle.std.specs.Prelude.{◌≡◌};
ghost use Rattle.hlo_cmd.specs.Messages.{flaw_name, il_kind, lexical_kind, syntax_kind, trap_name, type_kind};

use c_lex::LexKind;
use c_parse::ParseKind;
use c_types::TypeKind;
use hlo_num::Trap;
use il_check::Flaw;
use il_text::IlKind;

/// The name of a kind of lexical fault.
pub(crate) fn lexical_name(kind: LexKind) -> &'static str
    ensures { result.now ≡ lexical_kind kind }
{
    match kind {
        LexKind::BadByte => "BadByte",
        LexKind::Directive => "Directive",
        LexKind::OpenComment => "OpenComment",
        LexKind::BadChar => "BadChar",
        LexKind::BadNumber => "BadNumber",
        LexKind::TooBig => "TooBig",
        LexKind::LeftOut => "LeftOut",
        LexKind::LongName => "LongName",
    }
}

/// The name of a kind of syntax fault.
pub(crate) fn syntax_name(kind: ParseKind) -> &'static str
    ensures { result.now ≡ syntax_kind kind }
{
    match kind {
        ParseKind::Unexpected => "Unexpected",
        ParseKind::Deep => "Deep",
    }
}

/// The name of a rule of types or linkage.
pub(crate) fn type_name(kind: TypeKind) -> &'static str
    ensures { result.now ≡ type_kind kind }
{
    match kind {
        TypeKind::Specifiers => "Specifiers",
        TypeKind::Undeclared => "Undeclared",
        TypeKind::Redeclared => "Redeclared",
        TypeKind::TypeClash => "TypeClash",
        TypeKind::Duplicate => "Duplicate",
        TypeKind::Linkage => "Linkage",
        TypeKind::Library => "Library",
        TypeKind::ArraySize => "ArraySize",
        TypeKind::Initialiser => "Initialiser",
        TypeKind::TooMany => "TooMany",
        TypeKind::NotConstant => "NotConstant",
        TypeKind::ConstTrap => "ConstTrap",
        TypeKind::EnumRange => "EnumRange",
        TypeKind::NotObject => "NotObject",
        TypeKind::NotFunction => "NotFunction",
        TypeKind::Arguments => "Arguments",
        TypeKind::VoidValue => "VoidValue",
        TypeKind::NotLvalue => "NotLvalue",
        TypeKind::ConstWrite => "ConstWrite",
        TypeKind::BreakOutside => "BreakOutside",
        TypeKind::ContinueOutside => "ContinueOutside",
        TypeKind::CaseOutside => "CaseOutside",
        TypeKind::CaseRepeat => "CaseRepeat",
        TypeKind::ReturnValue => "ReturnValue",
        TypeKind::NoName => "NoName",
    }
}

/// The name of a trap.
pub(crate) fn trap_name(trap: Trap) -> &'static str
    ensures { result.now ≡ trap_name trap }
{
    match trap {
        Trap::Divide => "divide",
        Trap::Quotient => "quotient",
        Trap::Shift => "shift",
        Trap::Index => "index",
    }
}

/// The name of what is wrong with a text of IL.
pub(crate) fn il_name(kind: IlKind) -> &'static str
    ensures { result.now ≡ il_kind kind }
{
    match kind {
        IlKind::Line => "Line",
        IlKind::Order => "Order",
        IlKind::Invalid(flaw) => flaw_name(flaw),
        IlKind::NoMain => "NoMain",
    }
}

/// The name of a flaw of a routine.
fn flaw_name(flaw: Flaw) -> &'static str
    ensures { result.now ≡ flaw_name flaw }
{
    match flaw {
        Flaw::Params => "Params",
        Flaw::Register => "Register",
        Flaw::Array => "Array",
        Flaw::Object => "Object",
        Flaw::Callee => "Callee",
        Flaw::Arguments => "Arguments",
        Flaw::Result => "Result",
        Flaw::Target => "Target",
        Flaw::ReturnKind => "ReturnKind",
    }
}
