//! The routine of a function.
ghost use Rattle.std.specs.Prelude.{◌≡◌, ◌<◌, ◌≤◌, length, sum, IfErr, IfOk, OnOk};
ghost use Rattle.il_core.specs.Limits.{IsWithinLimits, max_arrays, max_elements, max_parameters, max_pids};
ghost use Rattle.profile.specs.Counts.{counts_of};
ghost use Rattle.c_typed.specs.Views.{function_of, stmt_of};
ghost use Rattle.lower_laws.specs.Bound.{IsBound};
ghost use Rattle.lower_laws.specs.Functions.{array_lengths, lowered};
ghost use Rattle.c_lower.specs.Lowering as specs;
ghost use Rattle.c_lower.specs.Settings.{fixed_of};

use crate::arrays::{array_lengths, array_places};
use crate::fault::LowerFault;
use crate::limits::{blocks_keep_limits, has_few_elements};
use crate::setting::Setting;
use crate::statements::Exits;
use crate::writer::Writer;
use c_typed::{TypedFunction, TypedStmt};
use hlo_num::Seq;
use il_core::{End, Routine, limits};
use lower_laws::lowered_sizes_are_numbers;
use profile::Profile;
use std::alloc::Global;
use sym_tables::ProgramSyms;

impl Writer {
    /// A body, and the return behind it.
    fn body(&mut self, body: &TypedStmt, c: &Setting) -> Result<(), LowerFault>
        ensures numbers { OnOk result (self.new.numbers ≡ specs.body_past (fixed_of c.now) (stmt_of body.now) self.old.numbers) }
        ensures draft { OnOk result (self.new.draft ≡ specs.body_drafted (fixed_of c.now) (stmt_of body.now) self.old.numbers self.old.draft) }
    {
        let nowhere = self.mark(0)?;
        let exits = Exits {
            breaks: End::Jump(nowhere),
            continues: End::Jump(nowhere),
        };
        self.stmt(body, true, exits, c)?;
        self.return_nothing(c.value)?;
        self.reach(nowhere);
        Ok(())
    }
}

/// The routine of a function whose parameters and arrays are few, with the lengths of its arrays and the count of its
/// entry.
fn routine(
    alloc: Global,
    f: &TypedFunction,
    c: &Setting,
    lengths: Vec<u32>,
    entry: u32,
) -> Result<Routine, LowerFault>
    requires bound { IsBound (function_of f.now) }
    requires setting { fixed_of c.now ≡ specs.fixed (fixed_of c.now).count (function_of f.now) }
    requires lengths { lengths.items ≡ array_lengths f.now.locals }
    requires pid { f.now.pid < max_pids }
    requires params { length f.now.params ≤ max_parameters }
    requires arrays { length lengths.items ≤ max_arrays }
    requires elements { sum lengths.items ≤ max_elements }
    ensures routine { IfOk result (λ r. r ≡ lowered entry (fixed_of c.now).count (function_of f.now)) }
    ensures too_large { IfErr result (λ e. e ≡ LowerFault.TooLarge → IsWithinLimits (lowered entry (fixed_of c.now).count (function_of f.now)) → ⊥) }
{
    lowered_sizes_are_numbers();
    let params = f.params.len() as u32;
    let mut writer = Writer::new(alloc, params);
    let Ok(()) = writer.body(&f.body, c) else {
        return Err(LowerFault::Memory);
    };
    let regs = writer.reg();
    let size = writer.size();
    if regs > limits::REGISTERS || size > limits::SIZE {
        return Err(LowerFault::TooLarge);
    }
    let blocks = writer.into_blocks();
    if !blocks_keep_limits(blocks.as_slice()) {
        return Err(LowerFault::TooLarge);
    }
    Ok(Routine {
        pid: f.pid,
        params,
        value: c.value,
        regs,
        entry,
        arrays: Seq::from_vec(lengths),
        blocks: Seq::from_vec(blocks),
    })
}

/// The routine of a function that its module's typing gave, with the counts of `p` for its name in `syms`:
/// parameters are its first registers, each local takes the next register, or array, at its declarator, and
/// behind the body stands a return without a value. `TooLarge` comes exactly where this routine passes a limit of the
/// language, and `Memory` for want of memory. It takes time and memory in proportion to the routine: one pass over the
/// tree, and one over the blocks, whose jumps go to labels before.
pub fn lower(
    alloc: Global,
    f: &TypedFunction,
    syms: &ProgramSyms,
    p: &Profile,
) -> Result<Routine, LowerFault>
    requires live { f.now.pid < length syms.now }
    requires bound { IsBound (function_of f.now) }
    ensures routine { IfOk result (λ r. r ≡ specs.routine_of syms.now (counts_of p.now) (function_of f.now)) }
    ensures too_large { IfErr result (λ e. e ≡ LowerFault.TooLarge → IsWithinLimits (specs.routine_of syms.now (counts_of p.now) (function_of f.now)) → ⊥) }
{
    let name = syms.name(f.pid).unwrap();
    let locals = f.locals.as_slice();
    let Ok(lengths) = array_lengths(alloc, locals) else {
        return Err(LowerFault::Memory);
    };
    if f.pid >= limits::PIDS || f.params.len() > limits::PARAMETERS as usize {
        return Err(LowerFault::TooLarge);
    }
    if lengths.len() > limits::ARRAYS as usize || !has_few_elements(lengths.as_slice()) {
        return Err(LowerFault::TooLarge);
    }
    let Ok(arrays) = array_places(alloc, locals) else {
        return Err(LowerFault::Memory);
    };
    let c = Setting {
        locals,
        arrays,
        total: lengths.len() as u32,
        value: f.result.is_some(),
        profile: p,
        name,
    };
    routine(alloc, f, &c, lengths, p.entry(name))
}
