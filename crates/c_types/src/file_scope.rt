//! Declarations at file scope (ISO C90, 6.5 and 6.7).
ghost use Rattle.std.specs.Prelude.{◌≡◌, false, None};
ghost use Rattle.c_tree.specs.declared.declaration.Shape.{Shape};
ghost use Rattle.c_types.specs.DeclarationRules as rules;
ghost use Rattle.c_types.specs.Follows.{Follows};
ghost use Rattle.c_types.specs.Names.{scoped};

use crate::binding::{Binding, Extent};
use crate::checker::{Checker, broken};
use crate::conditions::is_library;
use crate::fault::{TypeFault, TypeKind};
use crate::lengths::{declares, initialiser_line, is_length};
use crate::linkage::{Linked, is_extern, object_entity};
use crate::specifiers::{Site, Specified, Storage};
use c_tree::{Declaration, Declarator, Expr, Identifier, Initialiser, Parameter, Shape};
use hlo_num::{Seq, Ty, Word, convert};
use sym_tables::{Entity, Standing};

/// The line of a parameter: that of its name, or else that of its specifiers.
fn parameter_line(p: &Parameter) -> u32
    ensures { result ≡ rules.parameter_line p.now }
{
    match &p.name {
        Some(x) => x.line,
        None => p.specifiers.line,
    }
}

/// How long an array is: as long as its declarator says, or else an earlier one.
fn extent_or(said: Extent, old: Option<Binding>) -> Extent
    ensures { result ≡ rules.extent_or said old }
{
    match said {
        Extent::Array(None) => match old {
            Some(
                Binding::Object {
                    extent: Extent::Array(earlier),
                    ..
                },
            ) => Extent::Array(earlier),
            _ => said,
        },
        _ => said,
    }
}

/// How far a declarator of an object defines it (ISO C90, 6.7.2).
fn object_standing(storage: Option<Storage>, initialiser: &Option<Initialiser>) -> Standing
    ensures { result ≡ rules.object_standing storage initialiser.now }
{
    if initialiser.is_some() {
        Standing::Defined
    } else if is_extern(storage) {
        Standing::Declared
    } else {
        Standing::Tentative
    }
}

/// Whether an object is an array.
fn is_array(extent: Extent) -> bool
    ensures { result ≡ rules.is_array extent }
{
    matches!(extent, Extent::Array(_))
}

impl Checker {
    /// A declaration at file scope, in the module with this number; `Specifiers` where it declares nothing.
    pub(crate) fn file_declaration(&mut self, number: u32, d: &Declaration) -> Result<(), TypeFault>
        ensures { Follows (λ _. tt) (rules.file_declaration number d.now) self.old result self.new }
    {
        let s = self.specified(&d.specifiers, Site::File)?;
        if !declares(s, d.declarators.as_slice()) {
            return Err(broken(d.specifiers.line, TypeKind::Specifiers));
        }
        self.file_declarators(number, s, d.declarators.as_slice())
    }

    /// The declarators of a declaration in order.
    fn file_declarators(
        &mut self,
        number: u32,
        s: Specified,
        ds: &[Declarator],
    ) -> Result<(), TypeFault>
        ensures { Follows (λ _. tt) (rules.file_declarators number s ds.now) self.old result self.new }
    {
        for d in ds {
            self.file_declarator(number, s, d)?;
        }
        Ok(())
    }

    /// A declarator of a function or an object.
    fn file_declarator(
        &mut self,
        number: u32,
        s: Specified,
        d: &Declarator,
    ) -> Result<(), TypeFault>
        ensures { Follows (λ _. tt) (rules.file_shape number s d.now d.now.shape) self.old result self.new }
    {
        match &d.shape {
            Shape::Function(ps) => self.file_function(number, s, d, ps.as_slice()),
            _ => self.file_object(number, s, d),
        }
    }

    /// A declarator of a function. It has no initialiser.
    fn file_function(
        &mut self,
        number: u32,
        s: Specified,
        d: &Declarator,
        ps: &[Parameter],
    ) -> Result<(), TypeFault>
        ensures { Follows (λ _. tt) (rules.file_function number s d.now ps.now) self.old result self.new }
    {
        let params = self.prototype(ps)?;
        let said = Entity::Function {
            result: s.ty,
            params,
        };
        self.declare_function(number, &d.name, s.storage, said)?;
        self.no_initialiser(&d.initialiser)
    }

    /// The types of parameters, whose scope ends with them.
    fn prototype(&mut self, ps: &[Parameter]) -> Result<Seq<Ty>, TypeFault>
        ensures { Follows (λ v. v) (scoped (rules.parameters ps.now)) self.old result self.new }
    {
        self.enter()?;
        let types = self.parameters(ps)?;
        self.leave();
        Ok(Seq::from_vec(types))
    }

    /// Declares a function, which may be one of the library.
    fn declare_function(
        &mut self,
        number: u32,
        x: &Identifier,
        storage: Option<Storage>,
        said: Entity,
    ) -> Result<(), TypeFault>
        ensures { Follows (λ _. tt) (rules.declare_function number x.now storage said) self.old result self.new }
    {
        if is_library(&x.name) {
            return self.declare_library(x, storage, &said);
        }
        let l = self.link(number, x, storage, true, Standing::Declared, said)?;
        let b = Binding::Function {
            pid: l.pid,
            internal: l.internal,
        };
        self.bind(&x.name, b)?;
        Ok(())
    }

    /// A function has no initialiser.
    fn no_initialiser(&self, initialiser: &Option<Initialiser>) -> Result<(), TypeFault>
        ensures { Follows (λ _. tt) (rules.no_initialiser initialiser.now) self.now result self.now }
    {
        match initialiser {
            Some(i) => Err(broken(initialiser_line(i), TypeKind::Initialiser)),
            None => Ok(()),
        }
    }

    /// The types of a function's parameters, which are declared in the scope that is open. A single unnamed
    /// parameter of type void stands for none.
    pub(crate) fn parameters(&mut self, ps: &[Parameter]) -> Result<Vec<Ty>, TypeFault>
        ensures { Follows (λ v. v.items) (rules.parameters ps.now) self.old result self.new }
    {
        match ps {
            [p] if p.name.is_none() => self.unnamed_parameter(p),
            _ => self.all_parameters(ps),
        }
    }

    /// A single unnamed parameter.
    fn unnamed_parameter(&mut self, p: &Parameter) -> Result<Vec<Ty>, TypeFault>
        ensures { Follows (λ v. v.items) (rules.unnamed_parameter p.now) self.old result self.new }
    {
        let s = self.specified(&p.specifiers, Site::Parameter)?;
        let mut types = Vec::new(self.alloc);
        if let Some(ty) = s.ty {
            types.push(ty)?;
        }
        Ok(types)
    }

    /// The types of parameters, each with or without a name. `Specifiers` where one is void.
    fn all_parameters(&mut self, ps: &[Parameter]) -> Result<Vec<Ty>, TypeFault>
        ensures { Follows (λ v. v.items) (rules.parameters_from 0 ps.now) self.old result self.new }
    {
        let mut types = Vec::with_capacity(self.alloc, ps.len())?;
        for (place, p) in ps.iter().enumerate() {
            let s = self.specified(&p.specifiers, Site::Parameter)?;
            let ty = self.value_type(parameter_line(p), s.ty)?;
            self.declare_parameter(place, ty, s.fixed, &p.name)?;
            types.push(ty)?;
        }
        Ok(types)
    }

    /// Declares a parameter, if it has a name. A place that a `u32` doesn't hold is told as want of memory.
    fn declare_parameter(
        &mut self,
        place: usize,
        ty: Ty,
        fixed: bool,
        name: &Option<Identifier>,
    ) -> Result<(), TypeFault>
        ensures { Follows (λ _. tt) (rules.declare_parameter place ty fixed name.now) self.old result self.new }
    {
        let Some(x) = name else {
            return Ok(());
        };
        let Ok(place) = u32::try_from(place) else {
            return Err(TypeFault::Memory);
        };
        self.declare_new(x, Binding::Parameter { place, ty, fixed })
    }

    /// A declarator of an object. `Specifiers` where it is void, `Library` where it has a name of the library.
    fn file_object(&mut self, number: u32, s: Specified, d: &Declarator) -> Result<(), TypeFault>
        ensures { Follows (λ _. tt) (rules.file_object number s d.now) self.old result self.new }
    {
        let ty = self.value_type(d.name.line, s.ty)?;
        let said = self.file_extent(d.name.line, &d.shape, &d.initialiser)?;
        if is_library(&d.name.name) {
            return Err(broken(d.name.line, TypeKind::Library));
        }
        self.declare_object(number, s, d, ty, said)
    }

    /// Declares an object of a type and an extent, as the declarator says.
    fn declare_object(
        &mut self,
        number: u32,
        s: Specified,
        d: &Declarator,
        ty: Ty,
        said: Extent,
    ) -> Result<(), TypeFault>
        ensures { Follows (λ _. tt) (rules.declare_object number s d.now ty said) self.old result self.new }
    {
        let extent = extent_or(said, self.bound_here(&d.name.name));
        let l = self.link_object(number, s, d, ty, said)?;
        self.bind_object(s, d, ty, extent, l)
    }

    /// What the program knows of the object.
    fn link_object(
        &mut self,
        number: u32,
        s: Specified,
        d: &Declarator,
        ty: Ty,
        said: Extent,
    ) -> Result<Linked, TypeFault>
        ensures { Follows (λ l. l) (rules.link number d.now.name s.storage false (rules.object_standing s.storage d.now.initialiser)
            (rules.object_entity ty s.fixed said)) self.old result self.new }
    {
        let standing = object_standing(s.storage, &d.initialiser);
        let entity = object_entity(ty, s.fixed, said);
        self.link(number, &d.name, s.storage, false, standing, entity)
    }

    /// Declares the object in the module as the program knows it, with its length and its words.
    fn bind_object(
        &mut self,
        s: Specified,
        d: &Declarator,
        ty: Ty,
        extent: Extent,
        l: Linked,
    ) -> Result<(), TypeFault>
        ensures { Follows (λ _. tt) (rules.bind_object s d.now ty extent l) self.old result self.new }
    {
        let b = Binding::Object {
            pid: l.pid,
            internal: l.internal,
            ty,
            fixed: s.fixed,
            extent,
        };
        self.bind(&d.name.name, b)?;
        self.begun(&d.name, l.pid, ty, extent, s.storage, &d.initialiser)
    }

    /// Whether an object is a variable or an array, with its length where the declarator or its initialiser
    /// has it. `ArraySize` where no array has that length.
    fn file_extent(
        &mut self,
        line: u32,
        shape: &Shape,
        initialiser: &Option<Initialiser>,
    ) -> Result<Extent, TypeFault>
        ensures { Follows (λ x. x) (rules.file_extent line shape.now initialiser.now) self.old result self.new }
    {
        match shape {
            Shape::Array(Some(e)) => {
                let n = self.length_of(line, e)?;
                Ok(Extent::Array(Some(n)))
            }
            Shape::Array(None) => self.listed_extent(line, initialiser),
            Shape::Plain | Shape::Function(_) => Ok(Extent::Scalar),
        }
    }

    /// An array without a length is as long as its initialiser, if it has one.
    fn listed_extent(
        &self,
        line: u32,
        initialiser: &Option<Initialiser>,
    ) -> Result<Extent, TypeFault>
        ensures { Follows (λ x. x) (rules.file_extent line (Shape.Array None) initialiser.now) self.now result self.now }
    {
        match initialiser {
            Some(Initialiser::List { elements, .. }) => {
                let n = elements.len();
                if !is_length(n) {
                    return Err(broken(line, TypeKind::ArraySize));
                }
                Ok(Extent::Array(Some(n as u32)))
            }
            _ => Ok(Extent::Array(None)),
        }
    }

    /// What follows the name of an object: the words of a definition; a tentative array waits for its length.
    fn begun(
        &mut self,
        x: &Identifier,
        pid: u32,
        ty: Ty,
        extent: Extent,
        storage: Option<Storage>,
        initialiser: &Option<Initialiser>,
    ) -> Result<(), TypeFault>
        ensures { Follows (λ _. tt) (rules.begun x.now pid ty extent storage initialiser.now) self.old result self.new }
    {
        match initialiser {
            Some(i) => {
                let words = self.initial_words(x.line, ty, extent, i)?;
                self.syms.initialise(pid, words);
                Ok(())
            }
            None => {
                if !is_array(extent) | is_extern(storage) {
                    return Ok(());
                }
                self.await_length(x)?;
                Ok(())
            }
        }
    }

    /// The words of an initialiser. A variable has a constant expression without braces, an array one in
    /// braces for each element; `Initialiser` otherwise.
    fn initial_words(
        &mut self,
        line: u32,
        ty: Ty,
        extent: Extent,
        initialiser: &Initialiser,
    ) -> Result<Vec<Word>, TypeFault>
        ensures { Follows (λ v. v.items) (rules.initial_words line ty extent initialiser.now) self.old result self.new }
    {
        match extent {
            Extent::Scalar => match initialiser {
                Initialiser::Value(e) => self.variable_word(ty, e),
                Initialiser::List { line, .. } => Err(broken(*line, TypeKind::Initialiser)),
            },
            Extent::Array(n) => match initialiser {
                Initialiser::List { elements, .. } => {
                    self.element_words(line, ty, n.unwrap_or(0), elements.as_slice())
                }
                Initialiser::Value(e) => Err(broken(e.line(), TypeKind::Initialiser)),
            },
        }
    }

    /// The word of a variable.
    fn variable_word(&mut self, ty: Ty, e: &Expr) -> Result<Vec<Word>, TypeFault>
        ensures { Follows (λ v. v.items) (rules.variable_word ty e.now) self.old result self.new }
    {
        let w = self.constant_word(e)?;
        let mut words = Vec::with_capacity(self.alloc, 1)?;
        words.push(convert(ty, Word(w)))?;
        Ok(words)
    }

    /// The words of an array's elements; `ArraySize` at the array's name where there are too many.
    fn element_words(
        &mut self,
        line: u32,
        ty: Ty,
        room: u32,
        elements: &[Expr],
    ) -> Result<Vec<Word>, TypeFault>
        ensures { Follows (λ v. v.items) (rules.element_words line ty room elements.now) self.old result self.new }
    {
        let mut room = room;
        let mut words = Vec::with_capacity(self.alloc, elements.len())?;
        for e in elements {
            if room == 0 {
                return Err(broken(line, TypeKind::ArraySize));
            }
            let w = self.constant_word(e)?;
            words.push(convert(ty, Word(w)))?;
            room -= 1;
        }
        Ok(words)
    }
}
