//! The templates of expressions. Operands and arguments come in order from left to right, the index of a target
//! before the right side, and the old word of a compound assignment before it too.
ghost use Rattle.std.specs.Prelude.{◌≡◌, map, IfOk, OnOk};
ghost use Rattle.c_typed.specs.Views.{arguments_from, expr_of, place_of};
ghost use Rattle.lower_laws.specs.Code.{past_end, past_instr, past_label, past_new, past_reg, past_site};
ghost use Rattle.lower_laws.specs.Expressions as laws;
ghost use Rattle.c_lower.specs.Expressions as specs;
ghost use Rattle.c_lower.specs.Settings.{fixed_of, spot_of};

use crate::fault::LowerFault;
use crate::operations::Spot;
use crate::setting::Setting;
use crate::writer::{Writer, after};
use c_typed::{BinaryOp, LogicalOp, Place, TypedExpr};
use hlo_num::{Op, Seq, Ty, Word};
use il_core::{End, Instr};

/// Whether a block is open behind an expression: none is behind `exit`, or where it comes last. It takes time in
/// proportion to the commas on the way to what comes last.
pub(crate) fn is_open(e: &TypedExpr) -> bool
    ensures { result ≡ laws.is_open (expr_of e.now) }
{
    match e {
        TypedExpr::Discard { operand } => is_open(operand.get()),
        TypedExpr::Comma { right, .. } => is_open(right.get()),
        TypedExpr::Exit { .. } => false,
        TypedExpr::Constant { .. }
        | TypedExpr::Read { .. }
        | TypedExpr::Convert { .. }
        | TypedExpr::Unary { .. }
        | TypedExpr::Binary { .. }
        | TypedExpr::Logical { .. }
        | TypedExpr::Conditional { .. }
        | TypedExpr::Assign { .. }
        | TypedExpr::Compound { .. }
        | TypedExpr::Prefix { .. }
        | TypedExpr::Postfix { .. }
        | TypedExpr::Call { .. }
        | TypedExpr::GetChar
        | TypedExpr::PutChar { .. } => true,
    }
}

/// Whether a block is open behind an arm of `?:`.
fn arm_open(ty: Option<Ty>, e: &TypedExpr) -> bool
    ensures { result ≡ laws.arm_open ty (expr_of e.now) }
{
    match ty {
        Some(_) => true,
        None => is_open(e),
    }
}

impl Writer {
    /// A new register for a result, where there is one.
    fn result_register(&mut self, ty: Option<Ty>) -> Result<Option<u32>, LowerFault>
        ensures register { IfOk result (λ r. r ≡ laws.result_register ty self.old.numbers.reg) }
        ensures numbers { OnOk result (self.new.numbers ≡ laws.result_past ty self.old.numbers) }
        ensures draft { self.new.draft ≡ self.old.draft }
    {
        match ty {
            Some(_) => Ok(Some(self.new_register()?)),
            None => Ok(None),
        }
    }

    /// Behind the left operand of `&&` or `||` in register x: to the right one in the next block, or past it at a
    /// label. It gives the register of the answer.
    fn ask(&mut self, op: LogicalOp, x: u32, skip: u32) -> Result<u32, LowerFault>
        ensures register { IfOk result (λ r. r ≡ self.old.numbers.reg) }
        ensures numbers { OnOk result (self.new.numbers ≡ past_end (past_reg self.old.numbers)) }
        ensures draft { OnOk result (self.new.draft ≡ specs.asked op x skip self.old.numbers self.old.draft) }
    {
        let answer = self.new_register()?;
        let next = self.mark(after(self.block())?)?;
        match op {
            LogicalOp::And => self.finish(End::Branch(x, next, skip))?,
            LogicalOp::Or => self.finish(End::Branch(x, skip, next))?,
        }
        Ok(answer)
    }

    /// Behind the right operand in register x: register d gets whether it isn't 0, and, at the label, the answer
    /// where it was skipped.
    fn answer(&mut self, op: LogicalOp, d: u32, x: u32, skip: u32) -> Result<(), LowerFault>
        ensures numbers { OnOk result (self.new.numbers ≡ past_end (past_instr (past_end (past_instr (past_new self.old.numbers))))) }
        ensures draft { OnOk result (self.new.draft ≡ specs.answered op d x skip self.old.numbers self.old.draft) }
    {
        let zero = self.constant(Word(0))?;
        self.put(Instr::Bin(Op::Ne, d, x, zero))?;
        let behind = self.mark(after(after(self.block())?)?)?;
        self.finish(End::Jump(behind))?;
        self.reach(skip);
        self.put(Instr::Const(d, skipped(op)))?;
        self.begin_block(true)
    }

    /// Behind the condition of `?:` in register x: to the first arm in the next block, or to the other at a label.
    fn choose(&mut self, ty: Option<Ty>, x: u32, other: u32) -> Result<(), LowerFault>
        ensures numbers { OnOk result (self.new.numbers ≡ past_end (laws.result_past ty self.old.numbers)) }
        ensures draft { OnOk result (self.new.draft ≡ specs.chosen ty x other self.old.numbers self.old.draft) }
    {
        self.result_register(ty)?;
        self.branch(x, other)
    }

    /// The result of an arm, in register x, goes to register d, where there is a result.
    fn arm(&mut self, ty: Option<Ty>, d: u32, x: u32) -> Result<(), LowerFault>
        ensures numbers { OnOk result (self.new.numbers ≡ laws.arm_past ty self.old.numbers) }
        ensures draft { OnOk result (self.new.draft ≡ specs.arm ty d x self.old.draft) }
    {
        match ty {
            Some(_) => self.put(Instr::Move(d, x)),
            None => Ok(()),
        }
    }

    /// The end of the first arm, behind which the other one begins.
    fn end_arm(
        &mut self,
        ty: Option<Ty>,
        d: u32,
        x: u32,
        behind: u32,
        other: u32,
    ) -> Result<(), LowerFault>
        ensures numbers { OnOk result (self.new.numbers ≡ past_end (laws.arm_past ty self.old.numbers)) }
        ensures draft { OnOk result (self.new.draft ≡ specs.first_arm ty d x behind other self.old.numbers self.old.draft) }
    {
        self.arm(ty, d, x)?;
        self.finish(End::Jump(behind))?;
        self.reach(other);
        Ok(())
    }

    /// The end of the other arm, behind which a block is begun.
    fn end_arms(
        &mut self,
        ty: Option<Ty>,
        d: u32,
        x: u32,
        behind: u32,
        opened: bool,
    ) -> Result<(), LowerFault>
        ensures numbers { OnOk result (self.new.numbers ≡ past_label opened (laws.arm_past ty self.old.numbers)) }
        ensures draft { OnOk result (self.new.draft ≡ specs.last_arm ty d x behind opened self.old.numbers self.old.draft) }
    {
        self.arm(ty, d, x)?;
        self.begin_block(opened)?;
        self.reach(behind);
        Ok(())
    }

    /// A call with the registers of its arguments. It gives the register of the result, where there is one.
    fn call(
        &mut self,
        ty: Option<Ty>,
        callee: u32,
        args: Vec<u32>,
        c: &Setting,
    ) -> Result<u32, LowerFault>
        ensures register { IfOk result (λ r. r ≡ self.old.numbers.reg) }
        ensures numbers { OnOk result (self.new.numbers ≡ past_site (past_instr (laws.result_past ty self.old.numbers))) }
        ensures draft { OnOk result (self.new.draft ≡ specs.called (fixed_of c.now) ty callee args.items self.old.numbers self.old.draft) }
    {
        let register = self.reg();
        let count = c.count(self.site());
        let dest = self.result_register(ty)?;
        self.put(Instr::Call {
            dest,
            callee,
            count,
            args: Seq::from_vec(args),
        })?;
        self.count_site()?;
        Ok(register)
    }

    /// An expression. It gives the register of its result, which means nothing where there is none.
    #[cycle(expressions)]
    pub(crate) fn expr(&mut self, e: &TypedExpr, c: &Setting) -> Result<u32, LowerFault>
        ensures register { IfOk result (λ r. r ≡ laws.result (expr_of e.now) self.old.numbers) }
        ensures numbers { OnOk result (self.new.numbers ≡ laws.past (expr_of e.now) self.old.numbers) }
        ensures draft { OnOk result (self.new.draft ≡ specs.written (fixed_of c.now) (expr_of e.now) self.old.numbers self.old.draft) }
    {
        match e {
            TypedExpr::Constant { value, .. } => self.constant(*value),
            TypedExpr::Read { place, .. } => {
                let spot = self.place(place, c)?;
                self.load(spot, c)
            }
            TypedExpr::Convert { ty, operand } => {
                let x = self.expr(operand.get(), c)?;
                self.convert(*ty, x)
            }
            TypedExpr::Discard { operand } => {
                let none = self.reg();
                self.expr(operand.get(), c)?;
                Ok(none)
            }
            TypedExpr::Unary { ty, op, operand } => {
                let x = self.expr(operand.get(), c)?;
                self.unary(*op, *ty, x)
            }
            TypedExpr::Binary {
                ty,
                op,
                left,
                right,
            } => {
                let x = self.expr(left.get(), c)?;
                let y = self.expr(right.get(), c)?;
                self.operate(*op, *ty, x, y)
            }
            TypedExpr::Logical { op, left, right } => {
                let x = self.expr(left.get(), c)?;
                let skip = self.mark(0)?;
                let answer = self.ask(*op, x, skip)?;
                let y = self.expr(right.get(), c)?;
                self.answer(*op, answer, y, skip)?;
                Ok(answer)
            }
            TypedExpr::Conditional {
                ty,
                condition,
                yes,
                no,
            } => {
                let x = self.expr(condition.get(), c)?;
                let register = self.reg();
                let behind = self.mark(0)?;
                let other = self.mark(0)?;
                self.choose(*ty, x, other)?;
                let y = self.expr(yes.get(), c)?;
                self.end_arm(*ty, register, y, behind, other)?;
                let z = self.expr(no.get(), c)?;
                self.end_arms(*ty, register, z, behind, arm_open(*ty, no.get()))?;
                Ok(register)
            }
            TypedExpr::Comma { left, right, .. } => {
                self.expr(left.get(), c)?;
                self.expr(right.get(), c)
            }
            TypedExpr::Assign { target, value, .. } => {
                let spot = self.place(target, c)?;
                let x = self.expr(value.get(), c)?;
                self.store(spot, x, c)?;
                Ok(x)
            }
            TypedExpr::Compound {
                ty,
                op,
                operands,
                target,
                value,
            } => {
                let spot = self.place(target, c)?;
                let old = self.fetch(*operands, spot, c)?;
                let x = self.expr(value.get(), c)?;
                self.update(*ty, *op, *operands, spot, old, x, c)
            }
            TypedExpr::Prefix { ty, step, target } => {
                let spot = self.place(target, c)?;
                self.step(*ty, *step, spot, c)
            }
            TypedExpr::Postfix { ty, step, target } => {
                let spot = self.place(target, c)?;
                let old = self.reg();
                self.step(*ty, *step, spot, c)?;
                Ok(old)
            }
            TypedExpr::Call {
                ty,
                function,
                arguments,
            } => {
                let args = self.arguments(arguments.as_slice(), c)?;
                self.call(*ty, *function, args, c)
            }
            TypedExpr::GetChar => {
                let register = self.reg();
                self.put_new(Instr::GetChar(register))?;
                Ok(register)
            }
            TypedExpr::PutChar { argument } => {
                let x = self.expr(argument.get(), c)?;
                let register = self.reg();
                self.put_new(Instr::PutChar(register, x))?;
                Ok(register)
            }
            TypedExpr::Exit { argument } => {
                let none = self.reg();
                let x = self.expr(argument.get(), c)?;
                self.finish(End::Exit(x))?;
                Ok(none)
            }
        }
    }

    /// The index of a place, where it has one.
    #[cycle(expressions)]
    fn place(&mut self, p: &Place, c: &Setting) -> Result<Spot, LowerFault>
        ensures spot { IfOk result (λ s. spot_of s ≡ laws.spot_at (place_of p.now) self.old.numbers) }
        ensures numbers { OnOk result (self.new.numbers ≡ laws.place_past (place_of p.now) self.old.numbers) }
        ensures draft { OnOk result (self.new.draft ≡ specs.placed (fixed_of c.now) (place_of p.now) self.old.numbers self.old.draft) }
    {
        match p {
            Place::Variable(x) => Ok(Spot::Whole(*x)),
            Place::Element { array, index } => {
                let i = self.expr(index.get(), c)?;
                Ok(Spot::Part(*array, i))
            }
        }
    }

    /// The arguments of a call in order, and their registers.
    #[cycle(expressions)]
    fn arguments(&mut self, es: &[TypedExpr], c: &Setting) -> Result<Vec<u32>, LowerFault>
        ensures registers { IfOk result (λ v. v.items ≡ laws.results (arguments_from (map expr_of es.now)) self.old.numbers) }
        ensures numbers { OnOk result (self.new.numbers ≡ laws.arguments_past (arguments_from (map expr_of es.now)) self.old.numbers) }
        ensures draft { OnOk result (self.new.draft ≡ specs.arguments (fixed_of c.now) (arguments_from (map expr_of es.now)) self.old.numbers self.old.draft) }
    {
        let mut registers = self.no_registers();
        for e in es {
            let x = self.expr(e, c)?;
            registers.push(x)?;
        }
        Ok(registers)
    }
}

/// The answer where the right operand is skipped.
fn skipped(op: LogicalOp) -> Word
    ensures { result.0 ≡ laws.skipped op }
{
    match op {
        LogicalOp::And => Word(0),
        LogicalOp::Or => Word(1),
    }
}
