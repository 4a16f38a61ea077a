//! Loads, stores, conversions and operators.
ghost use Rattle.std.specs.Prelude.{◌≡◌, suc, IfOk, OnOk};
ghost use Rattle.hlo_num.specs.Words.{is_narrow};
ghost use Rattle.c_typed.specs.Operators as typed;
ghost use Rattle.lower_laws.specs.Code.{past_instr, past_new};
ghost use Rattle.lower_laws.specs.Operations as laws;
ghost use Rattle.c_lower.specs.Drafts.{layout_now};
ghost use Rattle.c_lower.specs.Expressions as specs;
ghost use Rattle.c_lower.specs.Settings.{fixed_of, spot_of};

use crate::fault::LowerFault;
use crate::setting::Setting;
use crate::writer::Writer;
use c_tree::{Step, UnaryOp};
use c_typed::{Array, BinaryOp, Variable};
use hlo_num::{Op, Ty, Word, promote};
use il_core::Instr;

/// What is read or written: a variable, or the element of an array at the index in a register.
#[derive(Clone, Copy)]
pub(crate) enum Spot {
    Whole(Variable),
    Part(Array, u32),
}

/// Whether a word is converted to a type by an instruction.
pub(crate) fn is_narrow(ty: Ty) -> bool
    ensures { result ≡ is_narrow ty }
{
    match ty {
        Ty::Char | Ty::UChar | Ty::Short | Ty::UShort => true,
        Ty::Int | Ty::UInt | Ty::Long | Ty::ULong => false,
    }
}

/// The first of two operators in a signed type, and the second in an unsigned one.
fn by_sign(ty: Ty, signed: Op, unsigned: Op) -> Op
    ensures { result ≡ typed.by_sign ty signed unsigned }
{
    match ty {
        Ty::Char | Ty::Short | Ty::Int | Ty::Long => signed,
        Ty::UChar | Ty::UShort | Ty::UInt | Ty::ULong => unsigned,
    }
}

/// A binary operator that works in a type, on registers a and b into d. `>` and `>=` are `<` and `<=` of
/// swapped operands.
fn operation(op: BinaryOp, ty: Ty, d: u32, a: u32, b: u32) -> Instr
    ensures { result ≡ laws.operation op ty d a b }
{
    match op {
        BinaryOp::Or => Instr::Bin(Op::Or, d, a, b),
        BinaryOp::Xor => Instr::Bin(Op::Xor, d, a, b),
        BinaryOp::And => Instr::Bin(Op::And, d, a, b),
        BinaryOp::Equal => Instr::Bin(Op::Eq, d, a, b),
        BinaryOp::NotEqual => Instr::Bin(Op::Ne, d, a, b),
        BinaryOp::Less => Instr::Bin(by_sign(ty, Op::LtS, Op::LtU), d, a, b),
        BinaryOp::Greater => Instr::Bin(by_sign(ty, Op::LtS, Op::LtU), d, b, a),
        BinaryOp::LessEqual => Instr::Bin(by_sign(ty, Op::LeS, Op::LeU), d, a, b),
        BinaryOp::GreaterEqual => Instr::Bin(by_sign(ty, Op::LeS, Op::LeU), d, b, a),
        BinaryOp::ShiftLeft => Instr::Bin(Op::Shl, d, a, b),
        BinaryOp::ShiftRight => Instr::Bin(by_sign(ty, Op::ShrS, Op::ShrU), d, a, b),
        BinaryOp::Add => Instr::Bin(by_sign(ty, Op::AddS, Op::AddU), d, a, b),
        BinaryOp::Subtract => Instr::Bin(by_sign(ty, Op::SubS, Op::SubU), d, a, b),
        BinaryOp::Multiply => Instr::Bin(by_sign(ty, Op::MulS, Op::MulU), d, a, b),
        BinaryOp::Divide => Instr::Bin(by_sign(ty, Op::DivS, Op::DivU), d, a, b),
        BinaryOp::Remainder => Instr::Bin(by_sign(ty, Op::RemS, Op::RemU), d, a, b),
    }
}

/// The operator of a step.
fn step_op(step: Step) -> BinaryOp
    ensures { result ≡ typed.step_op step }
{
    match step {
        Step::Increment => BinaryOp::Add,
        Step::Decrement => BinaryOp::Subtract,
    }
}

impl Writer {
    /// A constant, in a new register.
    pub(crate) fn constant(&mut self, value: Word) -> Result<u32, LowerFault>
        ensures register { IfOk result (λ r. r ≡ self.old.numbers.reg) }
        ensures numbers { OnOk result (self.new.numbers ≡ past_new self.old.numbers) }
        ensures draft { OnOk result (self.new.draft ≡ specs.constant value self.old.numbers self.old.draft) }
    {
        let register = self.reg();
        self.put_new(Instr::Const(register, value))?;
        Ok(register)
    }

    /// The word of a register converted to a type. A conversion to a type that isn't narrow is nothing.
    pub(crate) fn convert(&mut self, ty: Ty, x: u32) -> Result<u32, LowerFault>
        ensures register { IfOk result (λ r. r ≡ laws.conv_result ty x self.old.numbers) }
        ensures numbers { OnOk result (self.new.numbers ≡ laws.conv_past ty self.old.numbers) }
        ensures draft { OnOk result (self.new.draft ≡ specs.converted ty x self.old.numbers self.old.draft) }
    {
        if !is_narrow(ty) {
            return Ok(x);
        }
        let register = self.reg();
        self.put_new(Instr::Conv(register, ty, x))?;
        Ok(register)
    }

    /// A binary operator that works in a type.
    pub(crate) fn operate(
        &mut self,
        op: BinaryOp,
        ty: Ty,
        x: u32,
        y: u32,
    ) -> Result<u32, LowerFault>
        ensures register { IfOk result (λ r. r ≡ self.old.numbers.reg) }
        ensures numbers { OnOk result (self.new.numbers ≡ past_new self.old.numbers) }
        ensures draft { OnOk result (self.new.draft ≡ specs.operated op ty x y self.old.numbers self.old.draft) }
    {
        let register = self.reg();
        self.put_new(operation(op, ty, register, x, y))?;
        Ok(register)
    }

    /// A unary operator on the word of register x.
    pub(crate) fn unary(&mut self, op: UnaryOp, ty: Ty, x: u32) -> Result<u32, LowerFault>
        ensures register { IfOk result (λ r. r ≡ laws.unary_result op x self.old.numbers) }
        ensures numbers { OnOk result (self.new.numbers ≡ laws.unary_past op self.old.numbers) }
        ensures draft { OnOk result (self.new.draft ≡ specs.unary op ty x self.old.numbers self.old.draft) }
    {
        match op {
            UnaryOp::Plus => Ok(x),
            UnaryOp::Minus => {
                let zero = self.constant(Word(0))?;
                self.operate(BinaryOp::Subtract, ty, zero, x)
            }
            UnaryOp::Complement => {
                let ones = self.constant(Word(u32::MAX))?;
                self.operate(BinaryOp::Xor, ty, x, ones)
            }
            UnaryOp::Not => {
                let zero = self.constant(Word(0))?;
                self.operate(BinaryOp::Equal, ty, x, zero)
            }
        }
    }

    /// The instruction that reads a spot into a register.
    #[tactic(auto, unfolding(crate::specs::Drafts::layout_now))]
    fn load_instr(&self, spot: Spot, d: u32, c: &Setting) -> Instr
        ensures { result ≡ laws.load (layout_now (fixed_of c.now) self.now.draft) (spot_of spot) d }
    {
        match spot {
            Spot::Whole(Variable::Parameter(x)) => Instr::Move(d, x),
            Spot::Whole(Variable::Local(x)) => Instr::Move(d, self.local(x)),
            Spot::Whole(Variable::Object(pid)) => Instr::Get(d, pid),
            Spot::Part(Array::Local(x), i) => Instr::GetA(d, c.array(x), i),
            Spot::Part(Array::Object(pid), i) => Instr::GetX(d, pid, i),
        }
    }

    /// The instruction that writes a register into a spot.
    #[tactic(auto, unfolding(crate::specs::Drafts::layout_now))]
    fn store_instr(&self, spot: Spot, x: u32, c: &Setting) -> Instr
        ensures { result ≡ laws.store (layout_now (fixed_of c.now) self.now.draft) (spot_of spot) x }
    {
        match spot {
            Spot::Whole(Variable::Parameter(d)) => Instr::Move(d, x),
            Spot::Whole(Variable::Local(d)) => Instr::Move(self.local(d), x),
            Spot::Whole(Variable::Object(pid)) => Instr::Set(pid, x),
            Spot::Part(Array::Local(a), i) => Instr::SetA(c.array(a), i, x),
            Spot::Part(Array::Object(pid), i) => Instr::SetX(pid, i, x),
        }
    }

    /// The word of a spot, in a new register.
    pub(crate) fn load(&mut self, spot: Spot, c: &Setting) -> Result<u32, LowerFault>
        ensures register { IfOk result (λ r. r ≡ self.old.numbers.reg) }
        ensures numbers { OnOk result (self.new.numbers ≡ past_new self.old.numbers) }
        ensures draft { OnOk result (self.new.draft ≡ specs.loaded (fixed_of c.now) (spot_of spot) self.old.numbers.reg self.old.draft) }
    {
        let register = self.reg();
        let instr = self.load_instr(spot, register, c);
        self.put_new(instr)?;
        Ok(register)
    }

    /// A spot gets the word of register x.
    pub(crate) fn store(&mut self, spot: Spot, x: u32, c: &Setting) -> Result<(), LowerFault>
        ensures numbers { OnOk result (self.new.numbers ≡ past_instr self.old.numbers) }
        ensures draft { OnOk result (self.new.draft ≡ specs.stored (fixed_of c.now) (spot_of spot) x self.old.draft) }
    {
        let instr = self.store_instr(spot, x, c);
        self.put(instr)
    }

    /// The old word of a spot, converted to the type in which an operator works.
    pub(crate) fn fetch(&mut self, ty: Ty, spot: Spot, c: &Setting) -> Result<u32, LowerFault>
        ensures register { IfOk result (λ r. r ≡ laws.conv_result ty self.old.numbers.reg (past_new self.old.numbers)) }
        ensures numbers { OnOk result (self.new.numbers ≡ laws.conv_past ty (past_new self.old.numbers)) }
        ensures draft { OnOk result (self.new.draft ≡ specs.fetched (fixed_of c.now) ty (spot_of spot) self.old.numbers self.old.draft) }
    {
        let loaded = self.load(spot, c)?;
        self.convert(ty, loaded)
    }

    /// The end of a compound assignment to a spot of type `ty`: the operator, in the type `operands`, on the
    /// old word and register x, the conversion, and the store.
    pub(crate) fn update(
        &mut self,
        ty: Ty,
        op: BinaryOp,
        operands: Ty,
        spot: Spot,
        old: u32,
        x: u32,
        c: &Setting,
    ) -> Result<u32, LowerFault>
        ensures register { IfOk result (λ r. r ≡ laws.update_result ty self.old.numbers) }
        ensures numbers { OnOk result (self.new.numbers ≡ laws.update_past ty self.old.numbers) }
        ensures draft { OnOk result (self.new.draft ≡ specs.updated (fixed_of c.now) ty op operands (spot_of spot) old x self.old.numbers self.old.draft) }
    {
        let word = self.operate(op, operands, old, x)?;
        let stored = self.convert(ty, word)?;
        self.store(spot, stored, c)?;
        Ok(stored)
    }

    /// `++` or `--` of a spot of type `ty`, which is a compound assignment of 1.
    pub(crate) fn step(
        &mut self,
        ty: Ty,
        step: Step,
        spot: Spot,
        c: &Setting,
    ) -> Result<u32, LowerFault>
        ensures register { IfOk result (λ r. r ≡ specs.stepped_result ty self.old.numbers) }
        ensures numbers { OnOk result (self.new.numbers ≡ specs.stepped_past ty self.old.numbers) }
        ensures draft { OnOk result (self.new.draft ≡ specs.stepped (fixed_of c.now) ty (typed.step_op step) (spot_of spot) self.old.numbers self.old.draft) }
    {
        let operands = promote(ty);
        let old = self.fetch(operands, spot, c)?;
        let one = self.constant(Word(1))?;
        self.update(ty, step_op(step), operands, spot, old, one, c)
    }
}
