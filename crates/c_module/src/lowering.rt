//! The routines of a file.
ghost use Rattle.std.specs.Prelude.{◌≡◌, ◌++◌, IfOk, IfErr, OnOk, map};
ghost use Rattle.std.specs.List.{AllByRecursion};
ghost use Rattle.outside.specs.Faults.{NoneFalls};
ghost use Rattle.outside.specs.Told.{SameFiles};
ghost use Rattle.profile.specs.Counts.{counts_of};
ghost use Rattle.c_typed.specs.Views.{function_of};
ghost use Rattle.c_lower.specs.Lowering.{routine_of};
ghost use Rattle.c_module.specs.Appending.{AddsLowered, CountsAreNoLimits, IsReady};
ghost use Rattle.c_module.specs.Files.{AreNames, HoldsLowered, IsCause};
ghost use Rattle.c_module.specs.Limits.{KeepsLimits};
ghost use Rattle.c_module.specs.Taking.{AreTaken, EndsTaking, HasRoom, IsStop};

use crate::fault::{FileFault, ModuleFault, Stop};
use crate::taking::RoutineTaker;
use crate::typing::typed_module;
use c_lower::{LowerFault, lower};
use c_typed::TypedFunction;
use il_core::Routine;
use lower_laws::lowered_sizes_are_numbers;
use outside::Shelf;
use profile::Profile;
use program_laws::typed_modules_fit;
use std::alloc::Global;
use sym_tables::ProgramSyms;

/// The law that the limits of the language ask nothing of a profile's counts.
fn counts_are_no_limits()
    ensures { CountsAreNoLimits }
{
    lowered_sizes_are_numbers();
}

/// Lowers some functions in order, and hands each routine to the taker as soon as it is made, up to the first that passes a
/// limit of the language or is refused.
fn take_routines<R: RoutineTaker>(
    alloc: Global,
    functions: &[TypedFunction],
    syms: &ProgramSyms,
    p: &Profile,
    taker: &mut R,
) -> Result<(), Stop>
    requires ready { AllByRecursion (IsReady syms.now) (map function_of functions.now) }
    requires takes { R.ready taker.old }
    requires room { HasRoom (R.taken taker.old) (map function_of functions.now) }
    ensures limits { OnOk result (AllByRecursion KeepsLimits (map function_of functions.now)) }
    ensures ok { OnOk result (R.taken taker.new ≡ R.taken taker.old ++ map (routine_of syms.now (counts_of p.now)) (map function_of functions.now)) }
    ensures still { OnOk result (R.ready taker.new) }
    ensures err { IfErr result (λ stop. EndsTaking R.taken R.ready R.keeps R.refuses syms.now (counts_of p.now) (map function_of functions.now)
        taker.old taker.new stop) }
    ensures kept { R.keeps taker.old taker.new }
{
    counts_are_no_limits();
    for f in functions {
        match lower(alloc, f, syms, p) {
            Ok(routine) => {
                let Ok(()) = taker.take(routine) else {
                    return Err(Stop::Refused);
                };
            }
            Err(LowerFault::TooLarge) => {
                return Err(Stop::File(FileFault::NoModule(ModuleFault::TooLarge { pid: f.pid })));
            }
            Err(LowerFault::Memory) => return Err(Stop::File(FileFault::Memory)),
        }
    }
    Ok(())
}

/// Hands the routines of the functions of a file to the taker, one after another, as [`lowered_module`] makes them. What was
/// taken before are routines of the modules whose names `syms` has.
pub(crate) fn take_module<S: Shelf, R: RoutineTaker>(
    alloc: Global,
    shelf: &mut S,
    file: &str,
    number: u32,
    syms: &mut ProgramSyms,
    p: &Profile,
    taker: &mut R,
) -> Result<(), Stop>
    requires taken { AreTaken (counts_of p.now) (R.taken taker.old) syms.old }
    requires takes { R.ready taker.old }
    ensures ok { OnOk result (AddsLowered number syms.old (counts_of p.now) (S.tells shelf.old file.now) (R.taken taker.old) (R.taken taker.new) syms.new) }
    ensures still { OnOk result (R.ready taker.new) }
    ensures err { IfErr result (λ stop. IsStop R.taken R.ready R.keeps R.refuses number syms.old (counts_of p.now) stop (S.tells shelf.old file.now)
        (S.faults shelf.old file.now) (S.faults shelf.new file.now) taker.old taker.new syms.new) }
    ensures names { OnOk result (AreNames syms.new) }
    ensures kept { R.keeps taker.old taker.new }
    ensures same { SameFiles (S.tells shelf.old) (S.tells shelf.new) }
    ensures counts { NoneFalls (S.faults shelf.old) (S.faults shelf.new) }
{
    typed_modules_fit();
    match typed_module(alloc, shelf, file, number, syms) {
        Ok(typed) => take_routines(alloc, typed.functions.as_slice(), syms, p, taker),
        Err(fault) => Err(Stop::File(fault)),
    }
}

/// The routines of the functions of a file in their order, with the counts of `p`, where [`typed_module`] types it; its
/// refusals are told first. `TooLarge` has the first function whose routine passes a limit of the language. `syms` has the
/// names of modules before it, or none, and takes in its own. It takes expected time and memory in proportion to the
/// file.
///
/// [`typed_module`]: crate::typed_module
pub fn lowered_module<S: Shelf>(
    alloc: Global,
    shelf: &mut S,
    file: &str,
    number: u32,
    syms: &mut ProgramSyms,
    p: &Profile,
) -> Result<Vec<Routine>, FileFault>
    requires names { AreNames syms.old }
    ensures ok { IfOk result (λ rs. HoldsLowered number syms.old (counts_of p.now) (S.tells shelf.old file.now) rs.items syms.new) }
    ensures err { IfErr result (λ f. IsCause number syms.old f (S.tells shelf.old file.now) (S.faults shelf.old file.now)
        (S.faults shelf.new file.now) syms.new) }
    ensures names { OnOk result (AreNames syms.new) }
    ensures same { SameFiles (S.tells shelf.old) (S.tells shelf.new) }
    ensures counts { NoneFalls (S.faults shelf.old) (S.faults shelf.new) }
{
    let mut routines = Vec::new(alloc);
    match take_module(alloc, shelf, file, number, syms, p, &mut routines) {
        Ok(()) => Ok(routines),
        Err(stop) => match stop {
            Stop::File(fault) => Err(fault),
            Stop::Refused => Err(FileFault::Memory),
        },
    }
}
