//! The check that all modules make one program.
ghost use Rattle.std.specs.Prelude.{◌≡◌, Some, None, IfOk, IfErr};
ghost use Rattle.sym_tables.specs.Table.{pid_of};
ghost use Rattle.linker.specs.Linking.{is_main_type, main_name, refusal};

use crate::fault::LinkFault;
use hlo_num::Ty;
use sym_tables::{Entity, ProgramSyms, Standing};

/// The program name of the function that a program begins with. The name of a static function has a dot,
/// so this is the external one.
const MAIN: &[u8] = b"main";

/// Links the program whose modules are all in the table, and gives the PID of `main`. `Undefined` comes
/// exactly where a PID is used and not defined, and has the least one; otherwise `NoMain` exactly where
/// no external `main` is defined, tentatively neither; otherwise `MainType` exactly where it isn't
/// `int main(void)`. It takes no memory, and at most two passes over the names.
pub fn link_check(s: &ProgramSyms) -> Result<u32, LinkFault>
    ensures ok { IfOk result (λ pid. (refusal s.now ≡ None) × (pid_of s.now main_name ≡ Some pid)) }
    ensures err { IfErr result (λ fault. refusal s.now ≡ Some fault) }
{
    if let Some(pid) = s.undefined() {
        return Err(LinkFault::Undefined { pid });
    }
    let Some((pid, main)) = s.find(MAIN) else {
        return Err(LinkFault::NoMain);
    };
    if main.standing == Standing::Declared {
        return Err(LinkFault::NoMain);
    }
    if !is_main_type(&main.entity) {
        return Err(LinkFault::MainType);
    }
    Ok(pid)
}

/// Whether something is a function without parameters that gives an `int`.
fn is_main_type(entity: &Entity) -> bool
    ensures { result ≡ is_main_type entity.now }
{
    match entity {
        Entity::Function {
            result: gives,
            params,
        } => *gives == Some(Ty::Int) && params.is_empty(),
        _ => false,
    }
}
