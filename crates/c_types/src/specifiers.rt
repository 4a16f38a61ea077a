//! What the specifiers of a declaration say together (ISO C90, 6.5.1 to 6.5.3).
ghost use Rattle.std.specs.Prelude.{◌≡◌, ◌+◌, ◌==◌};
ghost use Rattle.c_types.specs.Specifiers as specs;
ghost use Rattle.c_types.specs.WordCounts as counts;

use c_tree::SpecifierWord;
use hlo_num::Ty;

/// A storage class.
#[derive(Clone, Copy, Debug, PartialEq, Eq)]
pub enum Storage {
    Extern,
    Static,
    Auto,
    Register,
}

/// Where specifiers stand.
#[derive(Clone, Copy, Debug, PartialEq, Eq)]
pub enum Site {
    /// At file scope.
    File,
    /// In a block.
    Block,
    /// In a parameter.
    Parameter,
    /// In a cast.
    Cast,
}

/// A specifier as it was read.
#[derive(Clone, Copy)]
pub enum Part {
    /// A word.
    One(SpecifierWord),
    /// An enumeration by its tag.
    Tagged,
    /// An enumeration whose constants are listed.
    Listed,
}

/// What specifiers say. The type is none for void; `lists` says that an enumeration's constants are listed.
#[derive(Clone, Copy)]
pub struct Specified {
    pub storage: Option<Storage>,
    pub fixed: bool,
    pub ty: Option<Ty>,
    pub lists: bool,
}

/// How often each word that names a type stands, and how many enumerations.
#[derive(Clone, Copy)]
pub struct Counts {
    pub void: usize,
    pub char: usize,
    pub short: usize,
    pub int: usize,
    pub long: usize,
    pub signed: usize,
    pub unsigned: usize,
    pub enums: usize,
}

const NONE: Counts = Counts {
    void: 0,
    char: 0,
    short: 0,
    int: 0,
    long: 0,
    signed: 0,
    unsigned: 0,
    enums: 0,
};

fn is_word(word: SpecifierWord, part: Part) -> bool
    ensures { result ≡ specs.is_word word part }
{
    match part {
        Part::One(w) => word == w,
        Part::Tagged | Part::Listed => false,
    }
}

fn is_enum(part: Part) -> bool
    ensures { result ≡ specs.is_enum part }
{
    matches!(part, Part::Tagged | Part::Listed)
}

fn is_list(part: Part) -> bool
    ensures { result ≡ specs.is_list part }
{
    matches!(part, Part::Listed)
}

fn storage_part(part: Part) -> Option<Storage>
    ensures { result ≡ specs.storage_part part }
{
    match part {
        Part::One(SpecifierWord::Extern) => Some(Storage::Extern),
        Part::One(SpecifierWord::Static) => Some(Storage::Static),
        Part::One(SpecifierWord::Auto) => Some(Storage::Auto),
        Part::One(SpecifierWord::Register) => Some(Storage::Register),
        _ => None,
    }
}

/// How often a word stands.
fn words(parts: &[Part], word: SpecifierWord) -> usize
    ensures { result ≡ specs.how_many (specs.is_word word) parts.now }
{
    let mut n = 0;
    for part in parts {
        if is_word(word, *part) {
            n += 1;
        }
    }
    n
}

/// How many enumerations there are.
fn enums(parts: &[Part]) -> usize
    ensures { result ≡ specs.how_many specs.is_enum parts.now }
{
    let mut n = 0;
    for part in parts {
        if is_enum(*part) {
            n += 1;
        }
    }
    n
}

/// Whether an enumeration's constants are listed.
fn lists(parts: &[Part]) -> bool
    ensures { result ≡ specs.lists parts.now }
{
    for part in parts {
        if is_list(*part) {
            return true;
        }
    }
    false
}

/// How many storage classes there are.
fn storages(parts: &[Part]) -> usize
    ensures { result ≡ specs.how_many (λ p. specs.is_storage (specs.storage_part p)) parts.now }
{
    let mut n = 0;
    for part in parts {
        if storage_part(*part).is_some() {
            n += 1;
        }
    }
    n
}

/// The first storage class.
fn first_storage(parts: &[Part]) -> Option<Storage>
    ensures { result ≡ specs.first_storage parts.now }
{
    for part in parts {
        let s = storage_part(*part);
        if s.is_some() {
            return s;
        }
    }
    None
}

fn word_counts(parts: &[Part]) -> Counts
    ensures { result ≡ counts.word_counts parts.now }
{
    Counts {
        void: words(parts, SpecifierWord::Void),
        char: words(parts, SpecifierWord::Char),
        short: words(parts, SpecifierWord::Short),
        int: words(parts, SpecifierWord::Int),
        long: words(parts, SpecifierWord::Long),
        signed: words(parts, SpecifierWord::Signed),
        unsigned: words(parts, SpecifierWord::Unsigned),
        enums: enums(parts),
    }
}

fn same(a: Counts, b: Counts) -> bool
    ensures { result ≡ counts.same a b }
{
    a.void == b.void
        && a.char == b.char
        && a.short == b.short
        && a.int == b.int
        && a.long == b.long
        && a.signed == b.signed
        && a.unsigned == b.unsigned
        && a.enums == b.enums
}

/// Whether these words stand, and no others but `int` and `signed`, where they may stand besides.
fn is_set(words: Counts, int: bool, signed: bool, c: Counts) -> bool
    ensures { result ≡ counts.is_set words int signed c }
{
    same(c, words)
        || (int && same(c, Counts { int: 1, ..words }))
        || (signed && same(c, Counts { signed: 1, ..words }))
        || (int
            && signed
            && same(
                c,
                Counts {
                    int: 1,
                    signed: 1,
                    ..words
                },
            ))
}

/// The type that the words make, which is none for void; there may be no such type.
fn type_of_counts(c: Counts) -> Option<Option<Ty>>
    ensures { result ≡ counts.type_of_counts c }
{
    let char = Counts { char: 1, ..NONE };
    let short = Counts { short: 1, ..NONE };
    let int = Counts { int: 1, ..NONE };
    let long = Counts { long: 1, ..NONE };
    let unsigned = Counts {
        unsigned: 1,
        ..NONE
    };
    if same(c, Counts { void: 1, ..NONE }) {
        Some(None)
    } else if same(c, Counts { enums: 1, ..NONE }) {
        Some(Some(Ty::Int))
    } else if is_set(char, false, true, c) {
        Some(Some(Ty::Char))
    } else if same(
        c,
        Counts {
            unsigned: 1,
            ..char
        },
    ) {
        Some(Some(Ty::UChar))
    } else if is_set(short, true, true, c) {
        Some(Some(Ty::Short))
    } else if is_set(
        Counts {
            unsigned: 1,
            ..short
        },
        true,
        false,
        c,
    ) {
        Some(Some(Ty::UShort))
    } else if is_set(int, false, true, c) {
        Some(Some(Ty::Int))
    } else if same(c, Counts { signed: 1, ..NONE }) {
        Some(Some(Ty::Int))
    } else if is_set(unsigned, true, false, c) {
        Some(Some(Ty::UInt))
    } else if is_set(long, true, true, c) {
        Some(Some(Ty::Long))
    } else if is_set(
        Counts {
            unsigned: 1,
            ..long
        },
        true,
        false,
        c,
    ) {
        Some(Some(Ty::ULong))
    } else {
        None
    }
}

/// The type that specifiers name, which is none for void; they may name none. It goes over them once for each
/// word that may name a type.
#[tactic(auto, using(crate::proofs::TypeSets::types_agree))]
fn type_named(parts: &[Part]) -> Option<Option<Ty>>
    ensures { result ≡ specs.type_named parts.now }
{
    type_of_counts(word_counts(parts))
}

/// Whether a storage class may stand at a place.
fn allows(site: Site, storage: Option<Storage>) -> bool
    ensures { result ≡ specs.allows site storage }
{
    match storage {
        None => true,
        Some(s) => match site {
            Site::File => matches!(s, Storage::Extern | Storage::Static),
            Site::Block => matches!(s, Storage::Auto | Storage::Register),
            Site::Parameter => matches!(s, Storage::Register),
            Site::Cast => false,
        },
    }
}

/// How many `const`s may stand at a place.
fn consts(site: Site) -> usize
    ensures { result ≡ specs.consts site }
{
    match site {
        Site::Cast => 0,
        _ => 1,
    }
}

/// What specifiers say at a place, or none where they break the rule. It takes time in proportion to them.
pub(crate) fn meaning(site: Site, parts: &[Part]) -> Option<Specified>
    ensures { result ≡ specs.meaning site parts.now }
{
    let storage = first_storage(parts);
    let fixed = words(parts, SpecifierWord::Const);
    if storages(parts) > 1 || fixed > consts(site) || !allows(site, storage) {
        return None;
    }
    match type_named(parts) {
        Some(ty) => Some(Specified {
            storage,
            fixed: fixed != 0,
            ty,
            lists: lists(parts),
        }),
        None => None,
    }
}
