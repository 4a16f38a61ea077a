//! The laws of splicing callees into their callers.

ghost use Rattle.il_laws.specs.SpliceLaws.{SpliceFollows, InlineServes, InlineFollows, WaveFollows, SpliceSize, InlineSize};

/// A callee may be spliced at a site that calls it.
pub fn splice_keeps()
    ensures { SpliceFollows }
{}

/// Callees, or what already serves in their place, may be spliced at several sites of a routine from the
/// last one to the first, and in all routines of a program at once.
pub fn inline_keeps()
    ensures serves { InlineServes }
    ensures all { InlineFollows }
{}

/// Routines that serve in the program as it is may be put in place one after the other.
pub fn wave_keeps()
    ensures { WaveFollows }
{}

/// How large a routine is after a splice, and after several: its size, registers, arrays and elements.
pub fn splice_size()
    ensures one { SpliceSize }
    ensures all { InlineSize }
{}
