//! The program's names.
ghost use Rattle.std.specs.Prelude.{◌≡◌, ◌≤◌, ◌<◌, ◌+◌, ◌^◌, ◌==◌, ◌++◌, ◌∷◌, [], length, min, nat_lt, ◌&&◌, ◌||◌, Some, None, IfSome, IfOk, IfErr};
ghost use Rattle.std.specs.Prelude.{OnOk, if◌then◌else◌, slice_get};
ghost use Rattle.std.specs.Option.{option_map, option_copied};
ghost use Rattle.std.specs.List.{IsDistinct};
ghost use Rattle.std.specs.Map.{keys_of, lookup};
ghost use Rattle.indexmap.specs.Layout.{set_value_at};
ghost use Rattle.il_core.specs.Limits.{max_elements, max_names, max_parameters, max_routines};
ghost use Rattle.sym_tables.specs.Entities.{words};
ghost use Rattle.sym_tables.specs.Listing.{objects, shapes};
ghost use Rattle.sym_tables.specs.Sound.{IsSound};
ghost use Rattle.sym_tables.specs.Symbols.{is_defined, met};
ghost use Rattle.sym_tables.specs.Table.{enter, first_open, initialised, mark, pid_of, refusal_of, same_name, symbol_at, symbol_of, IsEntered};
ghost use Rattle.sym_tables.specs.Table.{IsRefused, IsTold};

use crate::entity::{Entity, compatible, composite};
use crate::fault::SymFault;
use crate::listing::{objects_of, shape_rows};
use crate::symbol::{Standing, Symbol, element_part, routine_part};
use hlo_num::{Name, Seq, Word};
use il_core::{Object, Shapes, limits};
use indexmap::IndexMap;
use std::alloc::{AllocError, Global};
use std::marker::Model;

/// The names of the program over all modules, each with what it stands for, how far it is defined, its
/// initial words, and whether it is used. A name's PID is its place in the order of first mention, from
/// 0. Contracts see the list of names and symbols in that order.
#[derive(Drop)]
pub struct ProgramSyms {
    symbols: IndexMap<Name, Symbol>,
    /// How many defined functions there are.
    routines: u32,
    /// How many elements the defined and tentative arrays have.
    elements: u32,
    /// No PID below this is used and not defined.
    least: usize,
}

impl Model for ProgramSyms {
    ghost use Rattle.sym_tables.specs.Table.{Table};
    ghost use Rattle.sym_tables.specs.Sound.{IsKept};

    ghost Value = { Table };

    ghost view = { λ s. s.symbols.entries };

    ghost invariant = { λ s. IsKept s.symbols.entries s.routines s.elements s.least };
}

/// Adds a name that is new, with its symbol.
fn push(symbols: &mut IndexMap<Name, Symbol>, name: &Name, symbol: Symbol) -> Result<(), SymFault>
    requires { lookup (same_name name.now) symbols.old.entries ≡ None }
    ensures ok { OnOk result (symbols.new.entries ≡ symbols.old.entries ++ (name.now, symbol) ∷ []) }
    ensures err { IfErr result (λ fault. (symbols.new.entries ≡ symbols.old.entries) × (fault ≡ SymFault.Memory)) }
{
    let Ok(key) = name.clone() else {
        return Err(SymFault::Memory);
    };
    let Ok(_) = symbols.insert(key, symbol) else {
        return Err(SymFault::Memory);
    };
    Ok(())
}

/// The bound on used and undefined PIDs, after the one at a place has become so or not.
fn least_with(least: usize, at: usize, is_open: bool) -> usize
    ensures { result ≡ (if is_open then min least at else least) }
{
    if is_open { least.min(at) } else { least }
}

/// The same bound, moved past a place that it stands at where the PID there isn't used and undefined.
fn least_past(least: usize, at: usize, is_open: bool) -> usize
    requires { at < 2 ^ 63 }
    ensures { result ≡ (if is_open then least else (if least == at then at + 1 else least)) }
{
    if !is_open && least == at {
        at + 1
    } else {
        least
    }
}

/// Whether a definition comes after another.
fn repeats(standing: Standing, known: Standing) -> bool
    ensures { result ≡ (is_defined standing && is_defined known) }
{
    standing == Standing::Defined && known == Standing::Defined
}

/// Whether so many names, routines, array elements or parameters are too many.
fn is_too_many(names: usize, routines: u32, elements: u64, parameters: usize) -> bool
    ensures { result ≡ (nat_lt max_names names || nat_lt max_routines routines || nat_lt max_elements elements || nat_lt max_parameters parameters) }
{
    names > limits::NAMES as usize
        || routines > limits::ROUTINES
        || elements > u64::from(limits::ELEMENTS)
        || parameters > limits::PARAMETERS as usize
}

impl ProgramSyms {
    /// No names. It takes no memory.
    pub fn new(alloc: Global) -> ProgramSyms
        ensures { result ≡ [] }
    {
        ProgramSyms {
            symbols: IndexMap::new(alloc),
            routines: 0,
            elements: 0,
            least: 0,
        }
    }

    /// The PID of a name, in expected constant time; `None` exactly where it wasn't mentioned.
    pub fn pid(&self, name: &Name) -> Option<u32>
        ensures { result ≡ pid_of self.now name.now }
    {
        let at = self.symbols.get_index_of(name)?;
        Some(at as u32)
    }

    /// What a PID stands for, in constant time; `None` exactly where there is no such PID.
    pub fn entity(&self, pid: u32) -> Option<&Entity>
        ensures { option_copied result ≡ option_map (λ s. s.entity) (symbol_at self.now pid) }
    {
        let (_, symbol) = self.symbols.get_index(pid as usize)?;
        Some(&symbol.entity)
    }

    /// The name of a PID, in constant time; `None` exactly where there is no such PID.
    pub fn name(&self, pid: u32) -> Option<&Name>
        ensures { option_copied result ≡ option_map (λ e. e.0) (slice_get self.now pid) }
    {
        let (name, _) = self.symbols.get_index(pid as usize)?;
        Some(name)
    }

    /// The PID of the name with these bytes, and what is known of it, without a `Name` and so without
    /// memory; `None` exactly where no name with these bytes was mentioned. It takes one pass over the
    /// names; [`ProgramSyms::pid`] is for many look-ups.
    pub fn find(&self, bytes: &[u8]) -> Option<(u32, &Symbol)>
        ensures pid { option_map (λ found. found.0) result ≡ pid_of self.now bytes.now }
        ensures symbol { option_map (λ found. found.1.now) result ≡ symbol_of self.now bytes.now }
        ensures within { IfSome result (λ found. found.0 < length self.now) }
    {
        for at in 0..self.symbols.len() {
            let (name, symbol) = self.symbols.get_index(at).unwrap();
            if bytes == name.bytes() {
                return Some((at as u32, symbol));
            }
        }
        None
    }

    /// Takes in a declaration of a name, and gives its PID: its own, or the next number where the name is
    /// new. `TypeClash` comes exactly where the entity is incompatible with what is known of the name;
    /// `TooMany` exactly where a limit would be passed (see [`SymFault`]); `Memory` only for a new name, and
    /// only where nothing else is wrong. A refused call changes nothing. It takes expected constant time,
    /// and time in proportion to the parameters of a function.
    pub fn declare(&mut self, name: &Name, e: Entity) -> Result<u32, SymFault>
        ensures ok { IfOk result (λ pid. IsEntered Standing.Declared name.now e [] self.old pid self.new) }
        ensures err { IfErr result (λ fault. IsRefused Standing.Declared name.now e [] self.old fault self.new) }
    {
        let none = Seq::new(*self.symbols.allocator());
        self.enter(name, Standing::Declared, e, none)
    }

    /// The same for a tentative definition of an object, which counts as one with zeros unless a definition
    /// comes. A definition that is there stays.
    pub fn tentative(&mut self, name: &Name, e: Entity) -> Result<u32, SymFault>
        ensures ok { IfOk result (λ pid. IsEntered Standing.Tentative name.now e [] self.old pid self.new) }
        ensures err { IfErr result (λ fault. IsRefused Standing.Tentative name.now e [] self.old fault self.new) }
    {
        let none = Seq::new(*self.symbols.allocator());
        self.enter(name, Standing::Tentative, e, none)
    }

    /// The same for a definition, with the first words of an object: at most as many as the entity has,
    /// which is none for a function or an array of unknown length. `Duplicate` comes exactly where a
    /// defined name is defined again with a compatible entity.
    pub fn define(&mut self, name: &Name, e: Entity, init: Vec<Word>) -> Result<u32, SymFault>
        requires { length init.items ≤ words e }
        ensures ok { IfOk result (λ pid. IsEntered Standing.Defined name.now e init.items self.old pid self.new) }
        ensures err { IfErr result (λ fault. IsRefused Standing.Defined name.now e init.items self.old fault self.new) }
    {
        self.enter(name, Standing::Defined, e, Seq::from_vec(init))
    }

    /// Notes that an expression names a PID, in constant time.
    pub fn mark_used(&mut self, pid: u32)
        requires { pid < length self.old }
        ensures { self.new ≡ mark self.old pid }
    {
        let at = pid as usize;
        let symbol = self.symbols.get_index_mut(at).unwrap();
        symbol.used = true;
        self.least = least_with(self.least, at, symbol.is_open());
    }

    /// Gives an object its initial words, as far as it has room for them: for a definition whose words are
    /// known only after its name was entered. A PID that isn't there changes nothing. It takes constant time.
    pub fn initialise(&mut self, pid: u32, init: Vec<Word>)
        ensures { self.new ≡ initialised self.old pid init.items }
    {
        let at = pid as usize;
        if at >= self.symbols.len() {
            return;
        }
        let symbol = self.symbols.get_index_mut(at).unwrap();
        symbol.initialise(init);
    }

    /// One row for each name, by PID: what it stands for. An array of unknown length has 0 words there. It
    /// takes one pass over the names.
    pub fn shapes(&self) -> Result<Shapes, AllocError>
        ensures rows { IfOk result (λ s. s ≡ shapes self.now) }
        ensures sound { IsSound self.now }
        ensures distinct { IsDistinct same_name (keys_of self.now) }
    {
        let rows = shape_rows(*self.symbols.allocator(), &self.symbols)?;
        Ok(Shapes {
            rows: Seq::from_vec(rows),
        })
    }

    /// The defined and tentative objects by PID, each with its initial words up to the last one that isn't
    /// 0. An array whose length is still unknown has no words and is no object. It takes one pass over the
    /// names and their initial words.
    pub fn objects(&self) -> Result<Vec<Object>, AllocError>
        ensures { IfOk result (λ objs. objs.items ≡ objects self.now) }
    {
        objects_of(*self.symbols.allocator(), &self.symbols)
    }

    /// The least PID that is used and not defined; `None` exactly where there is none. It goes over the
    /// names from a kept PID on, below which there is none.
    pub fn undefined(&self) -> Option<u32>
        ensures { result ≡ first_open self.now }
    {
        for at in self.least..self.symbols.len() {
            let (_, symbol) = self.symbols.get_index(at).unwrap();
            if symbol.is_open() {
                return Some(at as u32);
            }
        }
        None
    }
}

impl ProgramSyms {
    /// Takes in a declaration or definition of the PID `at`.
    fn meet(
        &mut self,
        at: usize,
        standing: Standing,
        said: Entity,
        init: Seq<Word>,
    ) -> Result<u32, SymFault>
        requires there { at < length self.old }
        requires fits { length init ≤ words said }
        ensures ok { IfOk result (λ pid. let known = symbol_at self.old at in let after = set_value_at self.old at (met standing said init known) in (pid ≡ at)
            × (self.new ≡ after) × (refusal_of known standing said after ≡ None)) }
        ensures err { IfErr result (λ fault. let known = symbol_at self.old at in (self.new ≡ self.old) ×
            (refusal_of known standing said (set_value_at self.old at (met standing said init known)) ≡ Some fault)) }
    {
        let (_, known) = self.symbols.get_index(at).unwrap();
        if !compatible(&known.entity, &said) {
            return Err(SymFault::TypeClash);
        }
        if repeats(standing, known.standing) {
            return Err(SymFault::Duplicate);
        }
        let later = known.standing.later(standing);
        let entity = composite(&known.entity, &said);
        let routines = self.routines - routine_part(&known.entity, known.standing)
            + routine_part(entity, later);
        let elements = (self.elements - element_part(&known.entity, known.standing)) as u64
            + element_part(entity, later) as u64;
        if is_too_many(self.symbols.len(), routines, elements, entity.parameters()) {
            return Err(SymFault::TooMany);
        }
        let symbol = self.symbols.get_index_mut(at).unwrap();
        symbol.meet(standing, said, init);
        self.least = least_past(self.least, at, symbol.is_open());
        self.routines = routines;
        self.elements = elements as u32;
        Ok(at as u32)
    }

    /// Adds a name that is new.
    fn add(
        &mut self,
        name: &Name,
        standing: Standing,
        said: Entity,
        init: Seq<Word>,
    ) -> Result<u32, SymFault>
        requires absent { symbol_of self.old name.now ≡ None }
        requires fits { length init ≤ words said }
        ensures ok { IfOk result (λ pid. let after = self.old ++ (name.now, met standing said init None) ∷ [] in (pid ≡ length self.old) × (self.new ≡ after) ×
            (refusal_of None standing said after ≡ None)) }
        ensures err { IfErr result (λ fault. (self.new ≡ self.old) × IsTold
            (refusal_of None standing said (self.old ++ (name.now, met standing said init None) ∷ [])) fault) }
    {
        let at = self.symbols.len();
        let routines = self.routines + routine_part(&said, standing);
        let elements = self.elements as u64 + element_part(&said, standing) as u64;
        if is_too_many(at + 1, routines, elements, said.parameters()) {
            return Err(SymFault::TooMany);
        }
        let symbol = Symbol {
            entity: said,
            standing,
            init,
            used: false,
        };
        push(&mut self.symbols, name, symbol)?;
        self.least = least_past(self.least, at, false);
        self.routines = routines;
        self.elements = elements as u32;
        Ok(at as u32)
    }

    /// Takes in a declaration or definition of a name.
    fn enter(
        &mut self,
        name: &Name,
        standing: Standing,
        said: Entity,
        init: Seq<Word>,
    ) -> Result<u32, SymFault>
        requires { length init ≤ words said }
        ensures ok { IfOk result (λ pid. IsEntered standing name.now said init self.old pid self.new) }
        ensures err { IfErr result (λ fault. IsRefused standing name.now said init self.old fault self.new) }
    {
        match self.symbols.get_index_of(name) {
            Some(at) => self.meet(at, standing, said, init),
            None => self.add(name, standing, said, init),
        }
    }
}
