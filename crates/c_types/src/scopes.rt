//! The names in scope.
ghost use Rattle.std.specs.Prelude.{◌≡◌, ◌-◌, ◌^◌, [], true, false, OnOk, OnErr, IfOk, IfSome, IfNone, is_some};
ghost use Rattle.std.specs.Map.{lookup};
ghost use Rattle.sym_tables.specs.Table.{same_name};
ghost use Rattle.c_types.specs.Scopes.{visible, innermost, declared, entered, left, inner, resumed};
ghost use Rattle.c_types.specs.ScopeTable.{added, declaration, noted, Notes, IsPopped, IsLeft};

use hlo_num::Name;
use std::alloc::{AllocError, Global};
use std::collections::{HashMap, VecDeque};
use std::marker::Model;

/// What a name stands for, and the depth of the scope that says so.
#[derive(Clone, Copy)]
struct Latest<B> {
    depth: u32,
    stands_for: B,
}

/// A declaration. The one that it hides is the latest one before it with the same name.
#[derive(Drop)]
struct Entry<B> {
    name: Name,
    latest: Latest<B>,
    hides: Option<Latest<B>>,
}

/// The names of a name space that are in scope. Contracts see the list of declarations, the latest first, and
/// the depth of the innermost scope.
#[derive(Drop)]
pub(crate) struct Scopes<B> {
    /// Each name that was ever declared, with its latest declaration that is in scope.
    table: HashMap<Name, Option<Latest<B>>>,
    /// The declarations in scope, the latest first.
    entries: VecDeque<Entry<B>>,
    /// How many scopes are open round the innermost one.
    depth: u32,
}

impl<B> Model for Scopes<B> {
    ghost use Rattle.std.specs.Prelude.{map};
    ghost use Rattle.c_types.specs.Scopes as scope;
    ghost use Rattle.c_types.specs.ScopeTable.{declaration, IsKept};

    ghost Value = { scope.Scopes B };

    ghost view = { λ s. record { declared = map declaration s.entries.items; depth = s.depth } };

    ghost invariant = { λ s. IsKept s.table.entries s.entries.items };
}

/// The declarations of a scope that was left, the latest first.
#[derive(Drop)]
pub(crate) struct Aside<B> {
    entries: Vec<Entry<B>>,
}

impl<B> Model for Aside<B> {
    ghost use Rattle.std.specs.Prelude.{List, map};
    ghost use Rattle.c_types.specs.Scopes.{Declared};
    ghost use Rattle.c_types.specs.ScopeTable.{declaration};

    ghost Value = { List (Declared B) };

    ghost view = { λ a. map declaration a.entries.items };
}

impl<B: Copy> Scopes<B> {
    /// Nothing is declared, and the innermost scope is that of the file. It takes no memory.
    pub fn new(alloc: Global) -> Scopes<B>
        ensures { result ≡ record { declared = []; depth = 0 } }
    {
        Scopes {
            table: HashMap::new(alloc),
            entries: VecDeque::new(alloc),
            depth: 0,
        }
    }

    /// What a name stands for, in expected constant time; `None` exactly where it isn't in scope.
    pub fn visible(&self, name: &Name) -> Option<B>
        ensures { result ≡ visible name.now self.now }
    {
        match latest_of(&self.table, name) {
            Some(latest) => Some(latest.stands_for),
            None => None,
        }
    }

    /// What the innermost scope declares a name as, in expected constant time; `None` exactly where it doesn't.
    pub fn innermost(&self, name: &Name) -> Option<B>
        ensures { result ≡ innermost name.now self.now }
    {
        match latest_of(&self.table, name) {
            Some(latest) => {
                if latest.depth == self.depth {
                    Some(latest.stands_for)
                } else {
                    None
                }
            }
            None => None,
        }
    }

    /// How many scopes are open round the innermost one.
    pub fn depth(&self) -> u32
        ensures { result ≡ self.now.depth }
    {
        self.depth
    }

    /// The innermost scope gets a name, in amortised constant time. On `Err` nothing has changed.
    pub fn declare(&mut self, name: &Name, b: B) -> Result<(), AllocError>
        ensures ok { OnOk result (self.new ≡ declared name.now b self.old) }
        ensures err { OnErr result (self.new ≡ self.old) }
    {
        let latest = Latest {
            depth: self.depth,
            stands_for: b,
        };
        let name = name.clone()?;
        self.push(name, latest)
    }

    /// A new scope, in constant time. `Err` comes exactly where 2^32 - 1 scopes are open round the innermost one,
    /// which no module has room for, and then nothing has changed.
    pub fn enter(&mut self) -> Result<(), AllocError>
        ensures ok { OnOk result (self.new ≡ entered self.old) }
        ensures err { OnErr result (self.new ≡ self.old) }
        ensures full { OnErr result (self.old.depth ≡ 2 ^ 32 - 1) }
    {
        if self.depth == u32::MAX {
            return Err(AllocError);
        }
        self.depth += 1;
        Ok(())
    }

    /// The innermost scope ends, in time proportional to its declarations.
    pub fn leave(&mut self)
        ensures { self.new ≡ left self.old }
    {
        while let Some(_) = self.pop() {}
        self.depth = self.depth.saturating_sub(1);
    }

    /// The innermost scope ends and its declarations are kept, in time proportional to their number. On `Err`
    /// some of them are gone.
    pub fn set_aside(&mut self) -> Result<Aside<B>, AllocError>
        ensures { IfOk result (λ a. (self.new ≡ left self.old) × (a ≡ inner self.old.depth self.old.declared)) }
    {
        let mut entries = Vec::new(*self.entries.allocator());
        while let Some(entry) = self.pop() {
            entries.push(entry)?;
        }
        self.depth = self.depth.saturating_sub(1);
        Ok(Aside { entries })
    }

    /// A scope that was left is opened again with its declarations, in time proportional to their number. On
    /// `Err` some of them are missing.
    pub fn resume(&mut self, aside: Aside<B>) -> Result<(), AllocError>
        ensures { OnOk result (self.new ≡ resumed aside self.old) }
    {
        self.enter()?;
        let mut entries = aside.entries;
        while let Some(entry) = entries.pop() {
            self.push(entry.name, entry.latest)?;
        }
        Ok(())
    }
}

impl<B: Copy> Scopes<B> {
    /// Adds a declaration as the latest one.
    fn push(&mut self, name: Name, latest: Latest<B>) -> Result<(), AllocError>
        ensures ok { OnOk result (self.new ≡ added name latest.depth latest.stands_for self.old) }
        ensures err { OnErr result (self.new ≡ self.old) }
    {
        self.entries.try_reserve(1)?;
        let hides = note(&mut self.table, &name, Some(latest))?;
        self.entries.push_front(Entry {
            name,
            latest,
            hides,
        })?;
        Ok(())
    }

    /// Takes the latest declaration out where the innermost scope has it.
    fn pop(&mut self) -> Option<Entry<B>>
        ensures some { IfSome result (λ e. IsPopped self.old (declaration e) self.new) }
        ensures none { IfNone result (IsLeft self.old self.new) }
    {
        let first = self.entries.front()?;
        if first.latest.depth != self.depth {
            return None;
        }
        let first = self.entries.pop_front()?;
        rewrite(&mut self.table, &first.name, first.hides);
        Some(first)
    }
}

/// What the table has for a name.
fn latest_of<B: Copy>(table: &HashMap<Name, Option<Latest<B>>>, name: &Name) -> Option<Latest<B>>
    ensures { result ≡ noted name.now table.now.entries }
{
    match table.get(name) {
        Some(latest) => *latest,
        None => None,
    }
}

/// Changes what the table has for a name, and tells whether the table has that name.
fn rewrite<B: Copy>(
    table: &mut HashMap<Name, Option<Latest<B>>>,
    name: &Name,
    now: Option<Latest<B>>,
) -> bool
    ensures found { result ≡ is_some (lookup (same_name name.now) table.old.entries) }
    ensures written { result ≡ true → Notes name.now now table.old.entries table.new.entries }
    ensures missing { result ≡ false → table.new.entries ≡ table.old.entries }
{
    match table.get_mut(name) {
        Some(latest) => {
            *latest = now;
            true
        }
        None => false,
    }
}

/// Changes what the table has for a name, which may be new to it, and gives what it had.
fn note<B: Copy>(
    table: &mut HashMap<Name, Option<Latest<B>>>,
    name: &Name,
    now: Option<Latest<B>>,
) -> Result<Option<Latest<B>>, AllocError>
    ensures old { IfOk result (λ old. old ≡ noted name.now table.old.entries) }
    ensures ok { OnOk result (Notes name.now now table.old.entries table.new.entries) }
    ensures err { OnErr result (table.new.entries ≡ table.old.entries) }
{
    if let Some(latest) = table.get_mut(name) {
        let old = *latest;
        *latest = now;
        return Ok(old);
    }
    let key = name.clone()?;
    table.insert(key, now)?;
    Ok(None)
}
