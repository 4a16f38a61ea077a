//! The laws of the choice.

ghost use Rattle.plan_laws.specs.ChoiceLaws.{LevelsFall, FreeOfCycles, ChoiceFits, RankingIsOnly, WavesAgree, ChosenWavesAgree};

/// Accepted calls are free of cycles exactly where the routines have numbers that fall along each of them;
/// the levels are such numbers.
pub fn levels_fall()
    ensures fall { LevelsFall }
    ensures only { FreeOfCycles }
{}

/// The choice's calls are sites of their callers with their callees, and free of cycles.
pub fn choice_fits()
    ensures { ChoiceFits }
{}

/// Inlining wave by wave gives what inlining by recursion gives, for any accepted calls that are free of cycles
/// and so for the choice.
pub fn waves_agree()
    ensures any { WavesAgree }
    ensures chosen { ChosenWavesAgree }
{}

/// There is one ranking of the sites, so any sort gives it.
pub fn ranking_is_only()
    ensures { RankingIsOnly }
{}
