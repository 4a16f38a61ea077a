//! The templates of statements. Each says whether a block is open behind it.
ghost use Rattle.std.specs.Prelude.{◌≡◌, map, false, true, IfOk, OnOk};
ghost use Rattle.c_typed.specs.Views.{optional_of, section_of, sections_from, sequence_from, stmt_of};
ghost use Rattle.lower_laws.specs.Code.{past_end, past_label};
ghost use Rattle.lower_laws.specs.Statements as laws;
ghost use Rattle.lower_laws.specs.Switches as switches;
ghost use Rattle.c_lower.specs.Statements as specs;
ghost use Rattle.c_lower.specs.Drafts as drafts;
ghost use Rattle.c_lower.specs.Settings.{fixed_of};

use crate::expressions::is_open;
use crate::fault::LowerFault;
use crate::operations::Spot;
use crate::setting::Setting;
use crate::switches::{behind_labels, default_label};
use crate::writer::Writer;
use c_typed::{Section, TypedExpr, TypedStmt, Variable};
use hlo_num::Word;
use il_core::End;

/// What `break` and `continue` are at a place.
#[derive(Clone, Copy)]
pub(crate) struct Exits {
    pub(crate) breaks: End,
    pub(crate) continues: End,
}

impl Writer {
    /// A block is begun, and a label stands there.
    pub(crate) fn arrive(&mut self, label: u32, opened: bool) -> Result<(), LowerFault>
        ensures numbers { OnOk result (self.new.numbers ≡ past_label opened self.old.numbers) }
        ensures draft { OnOk result (self.new.draft ≡ specs.arrived label opened self.old.numbers self.old.draft) }
    {
        self.begin_block(opened)?;
        self.reach(label);
        Ok(())
    }

    /// The end of the first branch of `if`: a jump past the other one, which begins at its label.
    fn turn(&mut self, behind: u32, other: u32) -> Result<(), LowerFault>
        ensures numbers { OnOk result (self.new.numbers ≡ past_end self.old.numbers) }
        ensures draft { OnOk result (self.new.draft ≡ specs.turned behind other self.old.numbers self.old.draft) }
    {
        self.finish(End::Jump(behind))?;
        self.reach(other);
        Ok(())
    }

    /// The end of a loop: back to its top, and the label behind it.
    fn end_loop(&mut self, top: u32, behind: u32) -> Result<(), LowerFault>
        ensures numbers { OnOk result (self.new.numbers ≡ past_end self.old.numbers) }
        ensures draft { OnOk result (self.new.draft ≡ specs.looped top behind self.old.numbers self.old.draft) }
    {
        self.finish(End::Loop(top))?;
        self.reach(behind);
        Ok(())
    }

    /// A label where a block begins.
    fn top(&mut self) -> Result<u32, LowerFault>
        ensures label { IfOk result (λ l. l ≡ drafts.next_label self.old.draft) }
        ensures numbers { self.new.numbers ≡ self.old.numbers }
        ensures draft { OnOk result (self.new.draft ≡ drafts.mark self.old.numbers.block self.old.draft) }
    {
        self.mark(self.block())
    }

    /// The declarator of a local, which takes the next register unless it is an array.
    fn declare_local(&mut self, local: u32, c: &Setting) -> Result<(), LowerFault>
        ensures numbers { OnOk result (self.new.numbers ≡ laws.local_past ((fixed_of c.now).outline.is_array local) self.old.numbers) }
        ensures draft { OnOk result (self.new.draft ≡ drafts.declare self.old.numbers.reg self.old.draft) }
    {
        self.declare(self.reg())?;
        if !c.is_array(local) {
            self.new_register()?;
        }
        Ok(())
    }

    /// A return without a value: in a function that gives one, it gives 0.
    pub(crate) fn return_nothing(&mut self, value: bool) -> Result<(), LowerFault>
        ensures numbers { OnOk result (self.new.numbers ≡ laws.no_value_past value self.old.numbers) }
        ensures draft { OnOk result (self.new.draft ≡ specs.no_value value self.old.numbers self.old.draft) }
    {
        if !value {
            return self.finish(End::Return(None));
        }
        let zero = self.constant(Word(0))?;
        self.finish(End::Return(Some(zero)))
    }

    /// An expression that may be absent.
    fn optional(&mut self, e: &Option<TypedExpr>, c: &Setting) -> Result<(), LowerFault>
        ensures numbers { OnOk result (self.new.numbers ≡ laws.optional_past (optional_of e.now) self.old.numbers) }
        ensures draft { OnOk result (self.new.draft ≡ specs.optional (fixed_of c.now) (optional_of e.now) self.old.numbers self.old.draft) }
    {
        match e {
            Some(e) => {
                self.expr(e, c)?;
                Ok(())
            }
            None => Ok(()),
        }
    }

    /// The condition of `for`.
    fn condition(
        &mut self,
        e: &Option<TypedExpr>,
        behind: u32,
        c: &Setting,
    ) -> Result<(), LowerFault>
        ensures numbers { OnOk result (self.new.numbers ≡ laws.condition_past (optional_of e.now) self.old.numbers) }
        ensures draft { OnOk result (self.new.draft ≡ specs.condition (fixed_of c.now) (optional_of e.now) behind self.old.numbers self.old.draft) }
    {
        match e {
            Some(e) => {
                let x = self.expr(e, c)?;
                self.branch(x, behind)
            }
            None => self.begin_block(true),
        }
    }

    /// `return;` or `return e;`
    fn return_value(&mut self, e: &Option<TypedExpr>, c: &Setting) -> Result<(), LowerFault>
        ensures numbers { OnOk result (self.new.numbers ≡ specs.returned_past (fixed_of c.now) (optional_of e.now) self.old.numbers) }
        ensures draft { OnOk result (self.new.draft ≡ specs.returned (fixed_of c.now) (optional_of e.now) self.old.numbers self.old.draft) }
    {
        match e {
            Some(e) => {
                let x = self.expr(e, c)?;
                self.finish(End::Return(Some(x)))
            }
            None => self.return_nothing(c.value),
        }
    }

    /// A declarator with its initialiser.
    fn initialise(
        &mut self,
        e: &Option<TypedExpr>,
        local: u32,
        opened: bool,
        c: &Setting,
    ) -> Result<bool, LowerFault>
        ensures opened { IfOk result (λ b. b ≡ specs.declared_open (optional_of e.now) opened) }
        ensures numbers { OnOk result (self.new.numbers ≡ specs.declared_past (fixed_of c.now) local (optional_of e.now) self.old.numbers) }
        ensures draft { OnOk result (self.new.draft ≡ specs.declared (fixed_of c.now) local (optional_of e.now) self.old.numbers self.old.draft) }
    {
        self.declare_local(local, c)?;
        match e {
            Some(e) => {
                let x = self.expr(e, c)?;
                self.store(Spot::Whole(Variable::Local(local)), x, c)?;
                Ok(true)
            }
            None => Ok(opened),
        }
    }

    /// A statement.
    #[cycle(statements)]
    pub(crate) fn stmt(
        &mut self,
        s: &TypedStmt,
        opened: bool,
        exits: Exits,
        c: &Setting,
    ) -> Result<bool, LowerFault>
        ensures opened { IfOk result (λ b. b ≡ laws.open_behind (stmt_of s.now) opened) }
        ensures numbers { OnOk result (self.new.numbers ≡ laws.stmt_past (fixed_of c.now).outline (stmt_of s.now) opened self.old.numbers) }
        ensures draft { OnOk result (self.new.draft ≡ specs.stated (fixed_of c.now) exits.breaks exits.continues (stmt_of s.now) opened
            self.old.numbers self.old.draft) }
    {
        match s {
            TypedStmt::Block(items) => self.sequence(items.as_slice(), opened, exits, c),
            TypedStmt::Declaration { local, initialiser } => {
                self.initialise(initialiser, *local, opened, c)
            }
            TypedStmt::Empty => Ok(opened),
            TypedStmt::Expression(e) => {
                self.expr(e, c)?;
                Ok(is_open(e))
            }
            TypedStmt::If { condition, then } => {
                let x = self.expr(condition, c)?;
                let behind = self.mark(0)?;
                self.branch(x, behind)?;
                let goes_on = self.stmt(then.get(), true, exits, c)?;
                self.arrive(behind, goes_on)?;
                Ok(true)
            }
            TypedStmt::IfElse {
                condition,
                then,
                otherwise,
            } => {
                let x = self.expr(condition, c)?;
                let behind = self.mark(0)?;
                let other = self.mark(0)?;
                self.branch(x, other)?;
                self.stmt(then.get(), true, exits, c)?;
                self.turn(behind, other)?;
                let goes_on = self.stmt(otherwise.get(), true, exits, c)?;
                self.arrive(behind, goes_on)?;
                Ok(true)
            }
            TypedStmt::Switch { value, sections } => {
                let x = self.expr(value, c)?;
                let behind = self.mark(0)?;
                let at = self.mark_cases(sections.as_slice())?;
                self.test_cases(sections.as_slice(), x, at)?;
                let default = default_label(sections.as_slice(), at, behind)?;
                self.finish(End::Jump(default))?;
                let inside = Exits {
                    breaks: End::Jump(behind),
                    continues: exits.continues,
                };
                let goes_on = self.sections(sections.as_slice(), at, inside, c)?;
                self.arrive(behind, goes_on)?;
                Ok(true)
            }
            TypedStmt::While { condition, body } => {
                self.begin_block(opened)?;
                let top = self.top()?;
                let x = self.expr(condition, c)?;
                let behind = self.mark(0)?;
                self.branch(x, behind)?;
                let inside = Exits {
                    breaks: End::Jump(behind),
                    continues: End::Loop(top),
                };
                self.stmt(body.get(), true, inside, c)?;
                self.end_loop(top, behind)?;
                Ok(true)
            }
            TypedStmt::Do { body, condition } => {
                self.begin_block(opened)?;
                let top = self.top()?;
                let behind = self.mark(0)?;
                let ask = self.mark(0)?;
                let inside = Exits {
                    breaks: End::Jump(behind),
                    continues: End::Jump(ask),
                };
                let goes_on = self.stmt(body.get(), true, inside, c)?;
                self.arrive(ask, goes_on)?;
                let x = self.expr(condition, c)?;
                self.branch(x, behind)?;
                self.end_loop(top, behind)?;
                Ok(true)
            }
            TypedStmt::For {
                first,
                condition,
                step,
                body,
            } => {
                self.optional(first, c)?;
                self.begin_block(optional_open(first, opened))?;
                let top = self.top()?;
                let behind = self.mark(0)?;
                let next = self.mark(0)?;
                self.condition(condition, behind, c)?;
                let inside = Exits {
                    breaks: End::Jump(behind),
                    continues: End::Jump(next),
                };
                let goes_on = self.stmt(body.get(), true, inside, c)?;
                self.arrive(next, goes_on)?;
                self.optional(step, c)?;
                self.end_loop(top, behind)?;
                Ok(true)
            }
            TypedStmt::Break => {
                self.finish(exits.breaks)?;
                Ok(false)
            }
            TypedStmt::Continue => {
                self.finish(exits.continues)?;
                Ok(false)
            }
            TypedStmt::Return(e) => {
                self.return_value(e, c)?;
                Ok(false)
            }
        }
    }

    /// Statements in sequence.
    #[cycle(statements)]
    fn sequence(
        &mut self,
        ss: &[TypedStmt],
        opened: bool,
        exits: Exits,
        c: &Setting,
    ) -> Result<bool, LowerFault>
        ensures opened { IfOk result (λ b. b ≡ laws.open_behind (sequence_from (map stmt_of ss.now)) opened) }
        ensures numbers { OnOk result (self.new.numbers ≡ laws.stmt_past (fixed_of c.now).outline (sequence_from (map stmt_of ss.now)) opened
            self.old.numbers) }
        ensures draft { OnOk result (self.new.draft ≡ specs.stated (fixed_of c.now) exits.breaks exits.continues (sequence_from (map stmt_of ss.now)) opened
            self.old.numbers self.old.draft) }
    {
        let mut goes_on = opened;
        for s in ss {
            goes_on = self.stmt(s, goes_on, exits, c)?;
        }
        Ok(goes_on)
    }

    /// The sections of a switch, whose labels are those from `at` on.
    #[cycle(statements)]
    fn sections(
        &mut self,
        ss: &[Section],
        at: u32,
        exits: Exits,
        c: &Setting,
    ) -> Result<bool, LowerFault>
        ensures opened { IfOk result (λ b. b ≡ laws.sections_open (sections_from (map section_of ss.now)) false) }
        ensures numbers { OnOk result (self.new.numbers ≡ laws.sections_past (fixed_of c.now).outline (sections_from (map section_of ss.now)) false
            self.old.numbers) }
        ensures draft { OnOk result (self.new.draft ≡ specs.sections (fixed_of c.now) exits.breaks exits.continues (sections_from (map section_of ss.now)) at
            false self.old.numbers self.old.draft) }
    {
        let mut label = at;
        let mut goes_on = false;
        for section in ss {
            goes_on = self.arrive_at_labels(section.labels.as_slice(), label, goes_on)?;
            label = behind_labels(section.labels.as_slice(), label)?;
            goes_on = self.stmt(&section.body, goes_on, exits, c)?;
        }
        Ok(goes_on)
    }
}

/// Whether a block is open behind an expression that may be absent.
fn optional_open(e: &Option<TypedExpr>, opened: bool) -> bool
    ensures { result ≡ laws.optional_open (optional_of e.now) opened }
{
    match e {
        Some(e) => is_open(e),
        None => opened,
    }
}
