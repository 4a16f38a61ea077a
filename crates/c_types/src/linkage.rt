//! Linkage of names at file scope (ISO C90, 6.1.2.2), and how the program knows them.
ghost use Rattle.std.specs.Prelude.{◌≡◌, [], true, false, IfOk, IfErr};
ghost use Rattle.sym_tables.specs.Entities.{compatible};
ghost use Rattle.sym_tables.specs.Table.{IsEntered, IsRefused};
ghost use Rattle.c_types.specs.DeclarationRules as rules;
ghost use Rattle.c_types.specs.Follows.{Follows};

use crate::binding::{Binding, Extent, Library};
use crate::checker::{Checker, broken};
use crate::conditions::is_same;
use crate::fault::{TypeFault, TypeKind};
use crate::specifiers::Storage;
use c_tree::Identifier;
use hlo_num::{Name, Ty};
use itoa::Buffer;
use std::alloc::{AllocError, Global};
use sym_tables::{Entity, ProgramSyms, Standing, SymFault, compatible};

/// A name of the program, by its PID, with its linkage.
#[derive(Clone, Copy)]
pub struct Linked {
    pub pid: u32,
    pub internal: bool,
}

/// Whether a storage class is `static`.
fn is_static(storage: Option<Storage>) -> bool
    ensures { result ≡ rules.is_static storage }
{
    matches!(storage, Some(Storage::Static))
}

/// Whether a storage class is `extern`.
pub(crate) fn is_extern(storage: Option<Storage>) -> bool
    ensures { result ≡ rules.is_extern storage }
{
    matches!(storage, Some(Storage::Extern))
}

/// The entity of an object.
pub(crate) fn object_entity(ty: Ty, fixed: bool, extent: Extent) -> Entity
    ensures { result ≡ rules.object_entity ty fixed extent }
{
    match extent {
        Extent::Scalar => Entity::Scalar { ty, fixed },
        Extent::Array(len) => Entity::Array { ty, fixed, len },
    }
}

/// What a name of the library stands for.
fn library_binding(name: &Name) -> Binding
    ensures { result ≡ rules.library_binding name.now }
{
    let name = name.bytes();
    if is_same(b"getchar".as_slice(), name) {
        Binding::Library(Library::GetChar)
    } else if is_same(b"putchar".as_slice(), name) {
        Binding::Library(Library::PutChar)
    } else {
        Binding::Library(Library::Exit)
    }
}

/// Whether a name is that of a function of the library, and an entity is that function.
fn is_library_type(name: &Name, said: &Entity) -> bool
    ensures { result ≡ rules.is_library_type (rules.library_entity name.now) said.now }
{
    let name = name.bytes();
    if is_same(b"getchar".as_slice(), name) {
        is_function(Some(Ty::Int), [].as_slice(), said)
    } else if is_same(b"putchar".as_slice(), name) {
        is_function(Some(Ty::Int), [Ty::Int].as_slice(), said)
    } else if is_same(b"exit".as_slice(), name) {
        is_function(None, [Ty::Int].as_slice(), said)
    } else {
        false
    }
}

/// Whether an entity is a function of these types.
fn is_function(gives: Option<Ty>, takes: &[Ty], said: &Entity) -> bool
    ensures { result ≡ compatible (Entity.Function gives takes.now) said.now }
{
    match said {
        Entity::Function { result, params } => gives == *result && takes == params.as_slice(),
        _ => false,
    }
}

/// Whether a name stands for something else than a function of the library.
fn is_bound_otherwise(old: Option<Binding>) -> bool
    ensures { result ≡ rules.is_bound_otherwise old }
{
    match old {
        None | Some(Binding::Library(_)) => false,
        Some(_) => true,
    }
}

/// Whether a name has internal linkage.
fn is_internal(b: Binding) -> bool
    ensures { result ≡ rules.is_internal b }
{
    match b {
        Binding::Function { internal, .. } | Binding::Object { internal, .. } => internal,
        _ => false,
    }
}

/// Whether an earlier declaration made the name internal.
fn was_internal(old: Option<Binding>) -> bool
    ensures { result ≡ rules.was_internal old }
{
    match old {
        None => false,
        Some(b) => is_internal(b),
    }
}

/// Whether an earlier declaration made the name external.
fn was_external(old: Option<Binding>) -> bool
    ensures { result ≡ rules.was_external old }
{
    match old {
        None => false,
        Some(b) => !is_internal(b),
    }
}

/// The name by which the program knows an internal name: the module's number follows behind a dot.
fn internal_name(alloc: Global, number: u32, name: &Name) -> Result<Name, AllocError>
    ensures { IfOk result (λ n. n ≡ rules.program_name number true name.now) }
{
    let mut buffer = Buffer::new();
    let mut bytes = Vec::from_slice(alloc, name.bytes())?;
    bytes.push(b'.')?;
    bytes.extend_from_slice(buffer.format(number).as_bytes())?;
    Name::new(alloc, bytes.as_slice())
}

/// Takes in a declaration, a tentative definition, or a definition without initial words.
fn entered(
    alloc: Global,
    syms: &mut ProgramSyms,
    standing: Standing,
    name: &Name,
    said: Entity,
) -> Result<u32, SymFault>
    ensures ok { IfOk result (λ pid. IsEntered standing name.now said [] syms.old pid syms.new) }
    ensures err { IfErr result (λ fault. IsRefused standing name.now said [] syms.old fault syms.new) }
{
    match standing {
        Standing::Declared => syms.declare(name, said),
        Standing::Tentative => syms.tentative(name, said),
        Standing::Defined => syms.define(name, said, Vec::new(alloc)),
    }
}

impl Checker {
    /// Declares a name of the library as what it is. `Library` where it is declared as something else or
    /// static, `Redeclared` where the scope has it as something else.
    pub(crate) fn declare_library(
        &mut self,
        x: &Identifier,
        storage: Option<Storage>,
        said: &Entity,
    ) -> Result<(), TypeFault>
        ensures { Follows (λ _. tt) (rules.declare_library x.now storage said.now false) self.old result self.new }
    {
        if is_static(storage) | !is_library_type(&x.name, said) {
            return Err(broken(x.line, TypeKind::Library));
        }
        if is_bound_otherwise(self.bound_here(&x.name)) {
            return Err(broken(x.line, TypeKind::Redeclared));
        }
        self.bind(&x.name, library_binding(&x.name))?;
        Ok(())
    }

    /// Whether an earlier declaration in this module goes with another one.
    fn goes_with(&self, old: Option<Binding>, said: &Entity) -> bool
        ensures { result ≡ rules.goes_with self.now.syms old said.now }
    {
        match old {
            None => true,
            Some(Binding::Function { pid, .. }) => match self.syms.entity(pid) {
                Some(entity) => compatible(entity, said),
                None => false,
            },
            Some(
                Binding::Object {
                    ty,
                    fixed,
                    extent,
                    ..
                },
            ) => compatible(&object_entity(ty, fixed, extent), said),
            Some(_) => false,
        }
    }

    /// Whether the linkage of a declarator is internal. `Linkage` where an earlier declaration gave the name
    /// the other one.
    fn linkage(
        &self,
        line: u32,
        storage: Option<Storage>,
        function: bool,
        old: Option<Binding>,
    ) -> Result<bool, TypeFault>
        ensures { Follows (λ b. b) (rules.linkage line storage function old) self.now result self.now }
    {
        if is_static(storage) {
            if was_external(old) {
                return Err(broken(line, TypeKind::Linkage));
            }
            return Ok(true);
        }
        if is_extern(storage) | function {
            return Ok(was_internal(old));
        }
        if was_internal(old) {
            return Err(broken(line, TypeKind::Linkage));
        }
        Ok(false)
    }

    /// Takes a name of the program in, and gives its PID. `TypeClash` where it stands for something else,
    /// `Duplicate` where it is defined already, `TooMany` where a limit of the program would be passed.
    fn enter_name(
        &mut self,
        line: u32,
        standing: Standing,
        name: &Name,
        said: Entity,
    ) -> Result<u32, TypeFault>
        ensures { Follows (λ pid. pid) (rules.enter_name line standing name.now said) self.old result self.new }
    {
        match entered(self.alloc, &mut self.syms, standing, name, said) {
            Ok(pid) => Ok(pid),
            Err(SymFault::TypeClash) => Err(broken(line, TypeKind::TypeClash)),
            Err(SymFault::Duplicate) => Err(broken(line, TypeKind::Duplicate)),
            Err(SymFault::TooMany) => Err(broken(line, TypeKind::TooMany)),
            Err(SymFault::Memory) => Err(TypeFault::Memory),
        }
    }

    /// The same for a name of the module with this number, by the name that the program has for it.
    fn enter_linked(
        &mut self,
        number: u32,
        x: &Identifier,
        internal: bool,
        standing: Standing,
        said: Entity,
    ) -> Result<u32, TypeFault>
        ensures { Follows (λ pid. pid) (rules.enter_name x.now.line standing (rules.program_name number internal x.now.name) said) self.old result self.new }
    {
        if internal {
            let name = internal_name(self.alloc, number, &x.name)?;
            return self.enter_name(x.line, standing, &name, said);
        }
        self.enter_name(x.line, standing, &x.name, said)
    }

    /// A declarator of a name that isn't the library's, in the module with this number. `Redeclared` where the
    /// module declared it as something else, `Linkage` where it gave it the other linkage; then the program's
    /// faults. It takes expected constant time, and time in proportion to the parameters of a function.
    pub(crate) fn link(
        &mut self,
        number: u32,
        x: &Identifier,
        storage: Option<Storage>,
        function: bool,
        standing: Standing,
        said: Entity,
    ) -> Result<Linked, TypeFault>
        ensures { Follows (λ l. l) (rules.link number x.now storage function standing said) self.old result self.new }
    {
        let old = self.bound_here(&x.name);
        if !self.goes_with(old, &said) {
            return Err(broken(x.line, TypeKind::Redeclared));
        }
        let internal = self.linkage(x.line, storage, function, old)?;
        let pid = self.enter_linked(number, x, internal, standing, said)?;
        Ok(Linked { pid, internal })
    }
}
