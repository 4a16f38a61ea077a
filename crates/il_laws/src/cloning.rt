//! The laws of clones and of the calls that go to them.

ghost use Rattle.il_laws.specs.CloneLaws.{CloneIsRight, RowStays, CloneIsValid, CloneSize, RetargetServes, RetargetFollows, ClonesFollow};

/// A clone does what its callee does for all arguments with the constants, and goes on so through every
/// change that keeps what both do.
pub fn clone_is_right()
    ensures right { CloneIsRight }
    ensures stays { RowStays }
{}

/// A clone of a valid routine is valid, and as large as its callee with the constants.
pub fn clone_is_valid()
    ensures valid { CloneIsValid }
    ensures size { CloneSize }
{}

/// Sites may call the clones of right rows, where the row's constants are known.
pub fn retarget_keeps()
    ensures serves { RetargetServes }
    ensures follows { RetargetFollows }
{}

/// Clones may be added to a program, and their rows are right in it.
pub fn clones_keep()
    ensures { ClonesFollow }
{}
