//! What a lock keeps.
ghost use Rattle.std.specs.Prelude.{List, Option};

/// A fact about the lock's name, its state and the notes of its passes.
///
/// The notes stand by pass number. An ended pass has none; a pass that was dropped still has its note.
/// The name and the first note are shown to the lock once, at its making, and dropped there.
pub trait Rule {
    type Name: Drop;

    type State;

    type Note: Drop;

    ghost holds: { Self.Name → Self.State → List (Option Self.Note) → Type 0 };
}
