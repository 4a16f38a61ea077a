//! The walk over statements (ISO C90, 6.6).
ghost use Rattle.std.specs.Prelude.{◌≡◌, map, IfOk};
ghost use Rattle.c_types.specs.Follows.{Follows};
ghost use Rattle.c_types.specs.StatementRules as rules;

use crate::checker::{Checker, broken};
use crate::conversion::converted;
use crate::fault::{TypeFault, TypeKind};
use c_tree::{Block, Expr, Stmt};
use c_typed::{Label, Section, TypedExpr, TypedStmt};
use hlo_num::{Seq, Ty, Word, convert, promote};
use sqlite_items::{Boxed, Items};
use std::alloc::{AllocError, Global};

/// What is round a statement: the type of the value that the function gives, and whether `break` and
/// `continue` have something to leave.
#[derive(Clone, Copy)]
pub struct Around {
    pub result: Option<Ty>,
    pub breaks: bool,
    pub continues: bool,
}

/// What stands between the parentheses of a `for`.
#[derive(Drop)]
pub struct ForHead {
    pub first: Option<TypedExpr>,
    pub condition: Option<TypedExpr>,
    pub step: Option<TypedExpr>,
}

/// Inside a loop.
fn in_loop(around: Around) -> Around
    ensures { result ≡ rules.in_loop around }
{
    Around {
        breaks: true,
        continues: true,
        ..around
    }
}

/// Inside a switch.
fn in_switch(around: Around) -> Around
    ensures { result ≡ rules.in_switch around }
{
    Around {
        breaks: true,
        ..around
    }
}

impl Checker {
    /// A statement as it stands anywhere.
    #[cycle(statements)]
    fn statement(&mut self, around: Around, s: &Stmt) -> Result<TypedStmt, TypeFault>
        ensures { Follows (λ t. t) ((rules.ruling s.now).stmt around) self.old result self.new }
    {
        match s {
            Stmt::Block(block) => self.block(around, block),
            Stmt::Empty { .. } => Ok(TypedStmt::Empty),
            Stmt::Expression(e) => self.expression(e),
            Stmt::If {
                condition,
                then,
                ..
            } => self.if_then(around, then.get(), condition),
            Stmt::IfElse {
                condition,
                then,
                otherwise,
                ..
            } => {
                let v = self.valued(condition)?;
                let then = self.boxed(around, then.get())?;
                let otherwise = self.boxed(around, otherwise.get())?;
                Ok(TypedStmt::IfElse {
                    condition: v.expr,
                    then,
                    otherwise,
                })
            }
            Stmt::Switch { value, body, .. } => self.switch(around, body.get(), value),
            Stmt::While {
                condition,
                body,
                ..
            } => self.while_loop(around, body.get(), condition),
            Stmt::Do {
                body,
                condition,
                ..
            } => self.do_loop(around, body.get(), condition),
            Stmt::For {
                first,
                condition,
                step,
                body,
                ..
            } => self.for_loop(around, first, condition, step, body.get()),
            Stmt::Case { line, .. } | Stmt::Default { line, .. } => {
                Err(broken(*line, TypeKind::CaseOutside))
            }
            Stmt::Break { line } => {
                if !around.breaks {
                    return Err(broken(*line, TypeKind::BreakOutside));
                }
                Ok(TypedStmt::Break)
            }
            Stmt::Continue { line } => {
                if !around.continues {
                    return Err(broken(*line, TypeKind::ContinueOutside));
                }
                Ok(TypedStmt::Continue)
            }
            Stmt::Return { line, value } => match value {
                Some(e) => self.returned(*line, around.result, e),
                None => Ok(TypedStmt::Return(None)),
            },
        }
    }

    /// The same in a box.
    #[cycle(statements)]
    fn boxed(&mut self, around: Around, s: &Stmt) -> Result<Boxed<TypedStmt>, TypeFault>
        ensures { Follows (λ t. t) ((rules.ruling s.now).stmt around) self.old result self.new }
    {
        let t = self.statement(around, s)?;
        Ok(Boxed::new(self.alloc, t)?)
    }

    /// A block in a scope of its own.
    #[cycle(statements)]
    fn block(&mut self, around: Around, block: &Block) -> Result<TypedStmt, TypeFault>
        ensures { Follows (λ t. t) (rules.block_stmt (rules.blocking block.now) around) self.old result self.new }
    {
        self.enter()?;
        let items = self.block_statements(around, block)?;
        self.leave();
        Ok(TypedStmt::Block(items))
    }

    /// `if (c) s`
    #[cycle(statements)]
    fn if_then(
        &mut self,
        around: Around,
        then: &Stmt,
        condition: &Expr,
    ) -> Result<TypedStmt, TypeFault>
        ensures { Follows (λ t. t) (rules.if_then condition.now (rules.ruling then.now) around) self.old result self.new }
    {
        let v = self.valued(condition)?;
        let then = self.boxed(around, then)?;
        Ok(TypedStmt::If {
            condition: v.expr,
            then,
        })
    }

    /// `switch (e) s`
    #[cycle(statements)]
    fn switch(&mut self, around: Around, body: &Stmt, value: &Expr) -> Result<TypedStmt, TypeFault>
        ensures { Follows (λ t. t) (rules.switch_on value.now (rules.ruling body.now) around) self.old result self.new }
    {
        let v = self.valued(value)?;
        let ty = promote(v.ty);
        let value = converted(self.alloc, ty, v)?;
        let sections = self.labelled_body(in_switch(around), ty, body)?;
        Ok(TypedStmt::Switch { value, sections })
    }

    /// `while (c) s`
    #[cycle(statements)]
    fn while_loop(
        &mut self,
        around: Around,
        body: &Stmt,
        condition: &Expr,
    ) -> Result<TypedStmt, TypeFault>
        ensures { Follows (λ t. t) (rules.while_loop condition.now (rules.ruling body.now) around) self.old result self.new }
    {
        let v = self.valued(condition)?;
        let body = self.boxed(in_loop(around), body)?;
        Ok(TypedStmt::While {
            condition: v.expr,
            body,
        })
    }

    /// `do s while (c);`
    #[cycle(statements)]
    fn do_loop(
        &mut self,
        around: Around,
        body: &Stmt,
        condition: &Expr,
    ) -> Result<TypedStmt, TypeFault>
        ensures { Follows (λ t. t) (rules.do_loop (rules.ruling body.now) condition.now around) self.old result self.new }
    {
        let body = self.boxed(in_loop(around), body)?;
        let v = self.valued(condition)?;
        Ok(TypedStmt::Do {
            body,
            condition: v.expr,
        })
    }

    /// `for (first; condition; step) s`
    #[cycle(statements)]
    fn for_loop(
        &mut self,
        around: Around,
        first: &Option<Expr>,
        condition: &Option<Expr>,
        step: &Option<Expr>,
        body: &Stmt,
    ) -> Result<TypedStmt, TypeFault>
        ensures { Follows (λ t. t) (rules.for_loop first.now condition.now step.now (rules.ruling body.now) around) self.old result self.new }
    {
        let head = self.for_head(first, condition, step)?;
        let body = self.boxed(in_loop(around), body)?;
        Ok(TypedStmt::For {
            first: head.first,
            condition: head.condition,
            step: head.step,
            body,
        })
    }

    /// The body of a switch on a value of a type, with labels of its own.
    #[cycle(statements)]
    fn labelled_body(
        &mut self,
        around: Around,
        ty: Ty,
        s: &Stmt,
    ) -> Result<Items<Section>, TypeFault>
        ensures { Follows (λ xs. xs) (rules.labelling ((rules.ruling s.now).body around ty)) self.old result self.new }
    {
        let outer = self.begin_labels();
        let sections = self.body(around, ty, s)?;
        self.end_labels(outer);
        Ok(sections)
    }

    /// The body of a switch on a value of a type: a block, or one statement before which no label may stand.
    #[cycle(statements)]
    fn body(&mut self, around: Around, ty: Ty, s: &Stmt) -> Result<Items<Section>, TypeFault>
        ensures { Follows (λ xs. xs) ((rules.ruling s.now).body around ty) self.old result self.new }
    {
        match s {
            Stmt::Block(block) => {
                self.enter()?;
                let sections = self.block_sections(around, ty, block)?;
                self.leave();
                Ok(sections)
            }
            _ => {
                let t = self.statement(around, s)?;
                let mut sections = Items::new(self.alloc);
                sections.push(unlabelled(self.alloc, t))?;
                Ok(sections)
            }
        }
    }

    /// An item of a switch's block, with the labels right before it.
    #[cycle(statements)]
    fn section(&mut self, around: Around, ty: Ty, s: &Stmt) -> Result<Section, TypeFault>
        ensures { Follows (λ x. x) ((rules.ruling s.now).section around ty) self.old result self.new }
    {
        self.item(around, ty, s, Seq::new(self.alloc))
    }

    /// An item of a switch's block behind the labels that were read; more may stand before it. `CaseRepeat` at
    /// a label that the switch has already.
    #[cycle(statements)]
    fn item(
        &mut self,
        around: Around,
        ty: Ty,
        s: &Stmt,
        mut labels: Seq<Label>,
    ) -> Result<Section, TypeFault>
        ensures { Follows (λ x. x) (rules.behind labels ((rules.ruling s.now).item around ty)) self.old result self.new }
    {
        match s {
            Stmt::Case { line, value, body } => {
                let word = self.constant_word(value)?;
                let w = convert(ty, Word(word));
                self.new_case(*line, w.0)?;
                labels.push(Label::Case(w))?;
                self.item(around, ty, body.get(), labels)
            }
            Stmt::Default { line, body } => {
                self.new_default(*line)?;
                labels.push(Label::Default)?;
                self.item(around, ty, body.get(), labels)
            }
            _ => {
                let body = self.statement(around, s)?;
                Ok(Section { labels, body })
            }
        }
    }

    /// Statements in order.
    #[cycle(statements)]
    fn statements(&mut self, around: Around, ss: &[Stmt]) -> Result<Vec<TypedStmt>, TypeFault>
        ensures { Follows (λ v. v.items) (rules.statements around (map rules.ruling ss.now)) self.old result self.new }
    {
        let mut out = Vec::with_capacity(self.alloc, ss.len())?;
        for s in ss {
            let t = self.statement(around, s)?;
            out.push(t)?;
        }
        Ok(out)
    }

    /// The items of a switch's block, in order.
    #[cycle(statements)]
    fn sections(&mut self, around: Around, ty: Ty, ss: &[Stmt]) -> Result<Vec<Section>, TypeFault>
        ensures { Follows (λ v. v.items) (rules.sections around ty (map rules.ruling ss.now)) self.old result self.new }
    {
        let mut out = Vec::with_capacity(self.alloc, ss.len())?;
        for s in ss {
            let x = self.section(around, ty, s)?;
            out.push(x)?;
        }
        Ok(out)
    }

    /// The declarators and the statements of a block, in a scope that is open already.
    #[cycle(statements)]
    pub(crate) fn block_statements(
        &mut self,
        around: Around,
        block: &Block,
    ) -> Result<Items<TypedStmt>, TypeFault>
        ensures { Follows (λ ts. ts) ((rules.blocking block.now).statements around) self.old result self.new }
    {
        let mut out = self.declarations(block.declarations.as_slice())?;
        let mut rest = self.statements(around, block.statements.as_slice())?;
        out.append(&mut rest)?;
        Ok(Items::from_vec(out))
    }

    /// The same of a switch's block, whose statements may have labels.
    #[cycle(statements)]
    fn block_sections(
        &mut self,
        around: Around,
        ty: Ty,
        block: &Block,
    ) -> Result<Items<Section>, TypeFault>
        ensures { Follows (λ xs. xs) ((rules.blocking block.now).sections around ty) self.old result self.new }
    {
        let declared = self.declarations(block.declarations.as_slice())?;
        let mut out = all_unlabelled(declared)?;
        let mut rest = self.sections(around, ty, block.statements.as_slice())?;
        out.append(&mut rest)?;
        Ok(Items::from_vec(out))
    }
}

impl Checker {
    /// An expression as a statement.
    fn expression(&mut self, e: &Expr) -> Result<TypedStmt, TypeFault>
        ensures { Follows (λ t. t) (rules.expression_stmt e.now) self.old result self.new }
    {
        let t = self.typed(e)?;
        Ok(TypedStmt::Expression(t.expr))
    }

    /// What stands between the parentheses of a `for`.
    fn for_head(
        &mut self,
        first: &Option<Expr>,
        condition: &Option<Expr>,
        step: &Option<Expr>,
    ) -> Result<ForHead, TypeFault>
        ensures { Follows (λ h. h) (rules.for_head first.now condition.now step.now) self.old result self.new }
    {
        let first = self.optional_typed(first)?;
        let condition = self.optional_valued(condition)?;
        let step = self.optional_typed(step)?;
        Ok(ForHead {
            first,
            condition,
            step,
        })
    }

    /// An expression that may be absent.
    fn optional_typed(&mut self, e: &Option<Expr>) -> Result<Option<TypedExpr>, TypeFault>
        ensures { Follows (λ t. t) (rules.optional_typed e.now) self.old result self.new }
    {
        match e {
            Some(e) => {
                let t = self.typed(e)?;
                Ok(Some(t.expr))
            }
            None => Ok(None),
        }
    }

    /// An expression that may be absent, and has a value otherwise.
    fn optional_valued(&mut self, e: &Option<Expr>) -> Result<Option<TypedExpr>, TypeFault>
        ensures { Follows (λ t. t) (rules.optional_valued e.now) self.old result self.new }
    {
        match e {
            Some(e) => {
                let v = self.valued(e)?;
                Ok(Some(v.expr))
            }
            None => Ok(None),
        }
    }

    /// A returned value, converted to the type of the function's value; `ReturnValue` where it gives none.
    fn returned(&mut self, line: u32, ty: Option<Ty>, e: &Expr) -> Result<TypedStmt, TypeFault>
        ensures { Follows (λ t. t) (rules.returned line ty e.now) self.old result self.new }
    {
        match ty {
            Some(ty) => {
                let v = self.valued(e)?;
                Ok(TypedStmt::Return(Some(converted(self.alloc, ty, v)?)))
            }
            None => Err(broken(line, TypeKind::ReturnValue)),
        }
    }
}

/// A statement without labels, as a section.
fn unlabelled(alloc: Global, body: TypedStmt) -> Section
    ensures { result ≡ rules.section (rules.unlabelled body) }
{
    Section {
        labels: Seq::new(alloc),
        body,
    }
}

/// Statements without labels, as sections, in time proportional to their number.
fn all_unlabelled(statements: Vec<TypedStmt>) -> Result<Vec<Section>, AllocError>
    ensures { IfOk result (λ v. v.items ≡ map (λ s. rules.section (rules.unlabelled s)) statements.items) }
{
    let alloc = *statements.allocator();
    let mut out = Vec::with_capacity(alloc, statements.len())?;
    for body in statements {
        out.push(unlabelled(alloc, body))?;
    }
    Ok(out)
}
