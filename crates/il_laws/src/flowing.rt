//! What facts, live registers and reachable blocks are, in other words than their definitions.

ghost use Rattle.il_laws.specs.FlowLaws.{FactsMeet, LiveFlows, ReachableIsLeast};

/// At a block but the first to which no `loop` goes, a register has a word exactly where some block jumps
/// there, and at the end of each that does the register has that word.
pub fn facts_meet()
    ensures { FactsMeet }
{}

/// What is live at the start of a block goes backwards through it from what is live at its end.
pub fn live_flows()
    ensures { LiveFlows }
{}

/// The reachable blocks are the least set that has the first block and is closed under edges.
pub fn reachable_is_least()
    ensures { ReachableIsLeast }
{}
