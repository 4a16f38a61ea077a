//! The laws of clone groups.

ghost use Rattle.plan_laws.specs.GroupLaws.{GroupsMove, GroupRankingIsOnly};

/// In each pass the members of the accepted groups are exactly the sites that move, each to its group's clone.
pub fn groups_move()
    ensures { GroupsMove }
{}

/// There is one ranking of the groups, so any sort gives it.
pub fn group_ranking_is_only()
    ensures { GroupRankingIsOnly }
{}
