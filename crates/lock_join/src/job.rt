//! What workers do under a lock.
ghost use Rattle.std.specs.Prelude.{◌≡◌, ◌≢◌, ◌<◌, ◌+◌, ◌^◌, ℕ, List, Option, Some, None, [], ◌∷◌, ◌++◌, slice_set};
ghost use mathlib.Core.Option.{some};
ghost use lib.ListN.{get_elem?};

use named_lock::Rule;

/// A rule under which passes do pieces of work, and note how much they did.
pub trait Job: Rule {
    // How many pieces of work a note stands for.
    ghost amount: { Self.Note → ℕ };

    /// Does one piece of work on the state, and notes it.
    fn step(state: Self::State, note: Self::Note) -> (Self::State, Self::Note)
        requires room { amount note + 1 < 2 ^ 64 }
        ensures amount { amount result.1 ≡ amount note + 1 }
        ensures rule { (name : Self.Name) (notes : List (Option Self.Note)) (i : ℕ) → get_elem? notes i ≡ some (Some note) → Self.holds name state notes
            → Self.holds name result.0 (slice_set notes i (Some result.1)) };

    /// The note of a new pass, which did nothing.
    fn fresh() -> Self::Note
        ensures amount { amount result ≡ 0 }
        ensures rule { (name : Self.Name) (state : Self.State) (notes : List (Option Self.Note)) → Self.holds name state notes
            → Self.holds name state (notes ++ Some result ∷ []) };

    /// One note for two.
    fn together(one: Self::Note, two: Self::Note) -> Self::Note
        requires room { amount one + amount two < 2 ^ 64 }
        ensures amount { amount result ≡ amount one + amount two }
        ensures rule { (name : Self.Name) (state : Self.State) (notes : List (Option Self.Note)) (i j : ℕ) → i ≢ j → get_elem? notes i ≡ some (Some one)
            → get_elem? notes j ≡ some (Some two) → Self.holds name state notes → Self.holds name state (slice_set (slice_set notes i (Some result)) j None) };
}
