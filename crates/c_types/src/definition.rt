//! Headers and definitions of functions (ISO C90, 6.7.1 and 7.1.2).
ghost use Rattle.std.specs.Prelude.{◌≡◌, OnOk};
ghost use Rattle.hlo_num.specs.Name.{IsName};
ghost use Rattle.c_types.specs.Definitions as definitions;
ghost use Rattle.c_types.specs.Follows.{Follows};
ghost use Rattle.c_types.specs.Typing as typing;

use crate::binding::{Binding, Library};
use crate::checker::{Aside, Checker, broken};
use crate::conditions::is_library;
use crate::fault::{TypeFault, TypeKind};
use crate::specifiers::{Site, Specified};
use crate::statements::Around;
use c_tree::{Block, Function, Header, Identifier};
use c_typed::{Parameter, TypedFunction, TypedStmt};
use hlo_num::{Name, Seq, Ty, Word};
use std::alloc::AllocError;
use sym_tables::{Entity, Standing};

/// What stands before the block of a definition. The scope of the parameters is that of the block.
#[derive(Drop)]
pub(crate) struct Head {
    pid: u32,
    result: Option<Ty>,
    params: Seq<Parameter>,
    scope: Aside,
}

impl Checker {
    /// Declares the names of a header that the module hasn't.
    pub(crate) fn include(&mut self, header: Header) -> Result<(), AllocError>
        ensures { OnOk result (self.new ≡ typing.include header self.old) }
    {
        match header {
            Header::Stdio => {
                self.bind_new(b"getchar".as_slice(), Binding::Library(Library::GetChar))?;
                self.bind_new(b"putchar".as_slice(), Binding::Library(Library::PutChar))?;
                self.bind_new(b"EOF".as_slice(), Binding::Constant(Word(u32::MAX)))
            }
            Header::Stdlib => self.bind_new(b"exit".as_slice(), Binding::Library(Library::Exit)),
        }
    }

    /// Declares a name that the module hasn't.
    fn bind_new(&mut self, name: &[u8], b: Binding) -> Result<(), AllocError>
        requires { IsName name.now }
        ensures { OnOk result (self.new ≡ typing.bind_new name.now b self.old) }
    {
        let name = Name::new(self.alloc, name)?;
        if self.bound_here(&name).is_some() {
            return Ok(());
        }
        self.bind(&name, b)
    }

    /// The definition of a function in the module with this number. `Library` where it has a name of the
    /// library, `NoName` where a parameter has none; and the faults of its parts, in their order. It takes
    /// time in proportion to the definition.
    pub(crate) fn function(&mut self, number: u32, f: &Function) -> Result<TypedFunction, TypeFault>
        ensures { Follows (λ t. t) (typing.function number f.now) self.old result self.new }
    {
        let head = self.head(number, f)?;
        self.bodied(head, &f.body)
    }

    /// What stands before the block.
    fn head(&mut self, number: u32, f: &Function) -> Result<Head, TypeFault>
        ensures { Follows (λ h. h) (definitions.heading number f.now) self.old result self.new }
    {
        let s = self.specified(&f.specifiers, Site::File)?;
        self.enter()?;
        let types = self.parameters(f.parameters.as_slice())?;
        let scope = self.set_aside()?;
        self.front(number, f, s, types.as_slice(), scope)
    }

    /// What stands before the block, from the types of the parameters and their scope.
    fn front(
        &mut self,
        number: u32,
        f: &Function,
        s: Specified,
        types: &[Ty],
        scope: Aside,
    ) -> Result<Head, TypeFault>
        ensures { Follows (λ h. h) (definitions.front number f.now s types.now scope) self.old result self.new }
    {
        let pid = self.define_function(number, &f.name, s, types)?;
        let params = self.named_parameters(types, f.parameters.as_slice())?;
        Ok(Head {
            pid,
            result: s.ty,
            params: Seq::from_vec(params),
            scope,
        })
    }

    /// Defines the name of a function with parameters of these types, and gives its PID.
    fn define_function(
        &mut self,
        number: u32,
        x: &Identifier,
        s: Specified,
        types: &[Ty],
    ) -> Result<u32, TypeFault>
        ensures { Follows (λ pid. pid) (definitions.define_function number x.now s types.now) self.old result self.new }
    {
        if is_library(&x.name) {
            return Err(broken(x.line, TypeKind::Library));
        }
        let params = Seq::from_vec(Vec::from_slice(self.alloc, types)?);
        let said = Entity::Function {
            result: s.ty,
            params,
        };
        let l = self.link(number, x, s.storage, true, Standing::Defined, said)?;
        let b = Binding::Function {
            pid: l.pid,
            internal: l.internal,
        };
        self.bind(&x.name, b)?;
        Ok(l.pid)
    }

    /// The parameters of a definition, from their types; `NoName` where one has no name.
    fn named_parameters(
        &self,
        types: &[Ty],
        ps: &[c_tree::Parameter],
    ) -> Result<Vec<Parameter>, TypeFault>
        ensures { Follows (λ v. v.items) (typing.named_parameters types.now ps.now) self.now result self.now }
    {
        let mut named = Vec::with_capacity(self.alloc, types.len())?;
        for (ty, p) in types.iter().zip(ps) {
            let x = self.named_parameter(*ty, p)?;
            named.push(x)?;
        }
        Ok(named)
    }

    /// A parameter of a definition; `NoName` where it has no name.
    fn named_parameter(&self, ty: Ty, p: &c_tree::Parameter) -> Result<Parameter, TypeFault>
        ensures { Follows (λ x. x) (typing.named_parameter ty p.now.specifiers.line p.now.name) self.now result self.now }
    {
        match &p.name {
            Some(x) => {
                let name = x.name.clone()?;
                Ok(Parameter { ty, name })
            }
            None => Err(broken(p.specifiers.line, TypeKind::NoName)),
        }
    }

    /// The block of a definition, in the scope of its parameters.
    fn bodied(&mut self, head: Head, body: &Block) -> Result<TypedFunction, TypeFault>
        ensures { Follows (λ t. t) (definitions.bodied head body.now) self.old result self.new }
    {
        let Head {
            pid,
            result: gives,
            params,
            scope,
        } = head;
        self.resume(scope)?;
        self.forget_locals();
        let around = Around {
            result: gives,
            breaks: false,
            continues: false,
        };
        let items = self.block_statements(around, body)?;
        let locals = self.take_locals();
        self.leave();
        Ok(TypedFunction {
            pid,
            result: gives,
            params,
            locals: Seq::from_vec(locals),
            body: TypedStmt::Block(items),
        })
    }
}
