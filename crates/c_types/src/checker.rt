//! What the check of a module knows at a place.
ghost use Rattle.std.specs.Prelude.{◌≡◌, [], ◌∷◌, ◌++◌, false, IfOk, OnOk, ◌==◌};
ghost use Rattle.sym_tables.specs.Table.{mark};
ghost use Rattle.c_types.specs.Follows.{Follows};
ghost use Rattle.c_types.specs.Names as names;
ghost use Rattle.c_types.specs.Rules.{Here};
ghost use Rattle.c_types.specs.StatementRules as statements;
ghost use Rattle.c_types.specs.Typing as typing;

use crate::binding::Binding;
use crate::fault::{TypeFault, TypeKind};
use crate::scopes::{self, Scopes};
use c_tree::Identifier;
use c_typed::Local;
use hlo_num::Name;
use indexmap::IndexSet;
use std::alloc::{AllocError, Global};
use std::marker::Model;
use std::mem;
use sym_tables::ProgramSyms;

/// An enumeration tag stands for nothing but itself.
#[derive(Clone, Copy)]
pub(crate) struct Tag;

/// An array that was declared tentatively, with its line.
#[derive(Drop)]
pub struct Awaited {
    pub name: Name,
    pub line: u32,
}

/// The labels of a switch: its cases, and whether it has a default.
#[derive(Drop)]
pub(crate) struct Labels {
    cases: IndexSet<u32>,
    default: bool,
}

/// What is known at a place of the module. Contracts see it as `Here`.
#[derive(Drop)]
pub(crate) struct Checker {
    pub(crate) alloc: Global,
    names: Scopes<Binding>,
    tags: Scopes<Tag>,
    pub(crate) syms: ProgramSyms,
    /// The locals of the function at hand.
    locals: Vec<Local>,
    /// The cases of the innermost switch, and whether it has a default.
    cases: IndexSet<u32>,
    default: bool,
    awaited: Vec<Awaited>,
}

/// The innermost scope, to be opened again. Contracts see its names and its tags.
#[derive(Drop)]
pub(crate) struct Aside {
    names: scopes::Aside<Binding>,
    tags: scopes::Aside<Tag>,
}

impl Model for Aside {
    ghost use Rattle.c_types.specs.Typing as typing;

    ghost Value = { typing.Aside };

    ghost view = { λ a. record { names = a.names; tags = a.tags } };
}

impl Model for Checker {
    ghost use Rattle.c_types.specs.Rules.{Here};

    ghost Value = { Here };

    ghost view = { λ c. record {
      names = c.names;
      tags = c.tags;
      syms = c.syms;
      locals = c.locals.items;
      cases = c.cases.keys;
      default = c.default;
      awaited = c.awaited.items;
    } };
}

/// The fault of a rule that is broken at a line.
pub(crate) fn broken(line: u32, kind: TypeKind) -> TypeFault
    ensures { result ≡ TypeFault.At line kind }
{
    TypeFault::At { line, kind }
}

impl Checker {
    /// What is known where a module begins: the names of the program. It takes no memory.
    pub(crate) fn new(alloc: Global, syms: ProgramSyms) -> Checker
        ensures { result ≡ typing.start syms }
    {
        Checker {
            alloc,
            names: Scopes::new(alloc),
            tags: Scopes::new(alloc),
            syms,
            locals: Vec::new(alloc),
            cases: IndexSet::new(alloc),
            default: false,
            awaited: Vec::new(alloc),
        }
    }

    /// The names of the program.
    pub(crate) fn into_syms(self) -> ProgramSyms
        ensures { result ≡ self.syms }
    {
        let Checker {
            alloc: _,
            names: _,
            tags: _,
            syms,
            locals: _,
            cases: _,
            default: _,
            awaited: _,
        } = self;
        syms
    }

    /// The arrays that were declared tentatively.
    pub(crate) fn awaited(&self) -> &[Awaited]
        ensures { result.now ≡ self.now.awaited }
    {
        self.awaited.as_slice()
    }

    /// Notes an array that was declared tentatively.
    pub(crate) fn await_length(&mut self, x: &Identifier) -> Result<(), AllocError>
        ensures { OnOk result (self.new ≡ record self.old { awaited = self.old.awaited ++ record { name = x.now.name; line = x.now.line } ∷ [] }) }
    {
        let name = x.name.clone()?;
        self.awaited.push(Awaited { name, line: x.line })?;
        Ok(())
    }

    /// A function begins: it has no locals yet.
    pub(crate) fn forget_locals(&mut self)
        ensures { self.new ≡ record self.old { locals = [] } }
    {
        self.locals.clear();
    }

    /// The locals of the function, which ends.
    pub(crate) fn take_locals(&mut self) -> Vec<Local>
        ensures locals { result.items ≡ self.old.locals }
        ensures state { self.new ≡ record self.old { locals = [] } }
    {
        std::mem::replace(&mut self.locals, Vec::new(self.alloc))
    }

    /// Ends the innermost scope, and keeps it. On `Err` some of its names are gone.
    pub(crate) fn set_aside(&mut self) -> Result<Aside, AllocError>
        ensures { IfOk result (λ a. (a ≡ typing.aside self.old) × (self.new ≡ names.leave self.old)) }
    {
        let names = self.names.set_aside()?;
        let tags = self.tags.set_aside()?;
        Ok(Aside { names, tags })
    }

    /// Opens a scope again. On `Err` some of its names are missing.
    pub(crate) fn resume(&mut self, aside: Aside) -> Result<(), AllocError>
        ensures { OnOk result (self.new ≡ typing.resume aside self.old) }
    {
        let Aside { names, tags } = aside;
        self.names.resume(names)?;
        self.tags.resume(tags)
    }

    /// What a name is bound to; `Undeclared` where it isn't in scope.
    pub(crate) fn find(&self, x: &Identifier) -> Result<Binding, TypeFault>
        ensures { Follows (λ b. b) (names.find x.now) self.now result self.now }
    {
        match self.names.visible(&x.name) {
            Some(b) => Ok(b),
            None => Err(broken(x.line, TypeKind::Undeclared)),
        }
    }

    /// What the innermost scope binds a name to.
    pub(crate) fn bound_here(&self, name: &Name) -> Option<Binding>
        ensures { result ≡ names.bound_here name.now self.now }
    {
        self.names.innermost(name)
    }

    /// Whether the innermost scope is that of the file.
    pub(crate) fn is_at_file_scope(&self) -> bool
        ensures { result ≡ (self.now.names.depth == 0) }
    {
        self.names.depth() == 0
    }

    /// Binds a name in the innermost scope.
    pub(crate) fn bind(&mut self, name: &Name, b: Binding) -> Result<(), AllocError>
        ensures { OnOk result (self.new ≡ names.bind name.now b self.old) }
    {
        self.names.declare(name, b)
    }

    /// Declares a name that the innermost scope doesn't have; `Redeclared` where it has it.
    pub(crate) fn declare_new(&mut self, x: &Identifier, b: Binding) -> Result<(), TypeFault>
        ensures { Follows (λ _. tt) (names.declare_new x.now b) self.old result self.new }
    {
        if self.bound_here(&x.name).is_some() {
            return Err(broken(x.line, TypeKind::Redeclared));
        }
        self.bind(&x.name, b)?;
        Ok(())
    }

    /// Begins a scope.
    pub(crate) fn enter(&mut self) -> Result<(), AllocError>
        ensures { OnOk result (self.new ≡ names.enter self.old) }
    {
        self.names.enter()?;
        self.tags.enter()
    }

    /// Ends the innermost scope.
    pub(crate) fn leave(&mut self)
        ensures { self.new ≡ names.leave self.old }
    {
        self.names.leave();
        self.tags.leave();
    }

    /// Asks for a tag, in whatever scope; `Undeclared` where there is none.
    pub(crate) fn use_tag(&self, x: &Identifier) -> Result<(), TypeFault>
        ensures { Follows (λ _. tt) (names.use_tag x.now) self.now result self.now }
    {
        if self.tags.visible(&x.name).is_none() {
            return Err(broken(x.line, TypeKind::Undeclared));
        }
        Ok(())
    }

    /// Declares a tag that the innermost scope doesn't have; `Redeclared` where it has it.
    pub(crate) fn declare_tag(&mut self, x: &Identifier) -> Result<(), TypeFault>
        ensures { Follows (λ _. tt) (names.declare_tag x.now) self.old result self.new }
    {
        if self.tags.innermost(&x.name).is_some() {
            return Err(broken(x.line, TypeKind::Redeclared));
        }
        self.tags.declare(&x.name, Tag)?;
        Ok(())
    }

    /// Notes that an expression binds a PID.
    pub(crate) fn use_pid(&mut self, pid: u32)
        ensures { self.new ≡ record self.old { syms = mark self.old.syms pid } }
    {
        if self.syms.entity(pid).is_some() {
            self.syms.mark_used(pid);
        }
    }

    /// A new local of the function, by its place. `Memory` ends also where the function has 2^32 locals, which
    /// no module has room for.
    pub(crate) fn new_local(&mut self, local: Local) -> Result<u32, TypeFault>
        ensures { Follows (λ n. n) (statements.new_local local) self.old result self.new }
    {
        let Ok(place) = u32::try_from(self.locals.len()) else {
            return Err(TypeFault::Memory);
        };
        self.locals.push(local)?;
        Ok(place)
    }

    /// Begins the labels of a switch, and hands out those of the switch round it.
    pub(crate) fn begin_labels(&mut self) -> Labels
        ensures cases { result.cases.keys ≡ self.old.cases }
        ensures default { result.default ≡ self.old.default }
        ensures none { self.new ≡ record self.old { cases = []; default = false } }
    {
        Labels {
            cases: mem::replace(&mut self.cases, IndexSet::new(self.alloc)),
            default: mem::replace(&mut self.default, false),
        }
    }

    /// Ends the labels of a switch: those of the switch round it come back.
    pub(crate) fn end_labels(&mut self, outer: Labels)
        ensures { self.new ≡ record self.old { cases = outer.cases.keys; default = outer.default } }
    {
        self.cases = outer.cases;
        self.default = outer.default;
    }

    /// A case of the innermost switch, in expected constant time; `CaseRepeat` where the switch has it.
    pub(crate) fn new_case(&mut self, line: u32, w: u32) -> Result<(), TypeFault>
        ensures { Follows (λ _. tt) (statements.new_case line w) self.old result self.new }
    {
        if !self.cases.insert(w)? {
            return Err(broken(line, TypeKind::CaseRepeat));
        }
        Ok(())
    }

    /// The default of the innermost switch; `CaseRepeat` where the switch has one.
    pub(crate) fn new_default(&mut self, line: u32) -> Result<(), TypeFault>
        ensures { Follows (λ _. tt) (statements.new_default line) self.old result self.new }
    {
        if self.default {
            return Err(broken(line, TypeKind::CaseRepeat));
        }
        self.default = true;
        Ok(())
    }
}
