//! Laws of the definitions that the contracts cite. The functions do nothing: what they ensure is a
//! theorem.
ghost use Rattle.klsm_parts.specs.Laws.{TakesSkipFewOfBoth, OwnOrderMayTake, EarliesSkipNone, FirstGivesLeast, RefilledMayGoEarly};

/// Whatever the parts hold and whichever candidate is picked, a deletion skips at most k items of
/// the two.
pub fn takes_skip_few()
    ensures { TakesSkipFewOfBoth }
{}

/// Whichever candidate is picked: the first before it that the owner inserted, or else that one
/// itself, may be taken, or the least own item in its place. So the deletion skips none of the owner's
/// items.
pub fn own_order_may_take()
    ensures { OwnOrderMayTake }
{}

/// A deletion by the front skips no item of the two parts.
pub fn earlies_skip_none()
    ensures { EarliesSkipNone }
{}

/// A deletion that picks the first candidate gives the least item of the two parts, so with `First`
/// none is skipped.
pub fn first_gives_least()
    ensures { FirstGivesLeast }
{}

/// What a refill moves may be deleted by the front that the refill leaves, with no look at the shared
/// part: all but the items whose key is that of the front. It may, as long as the own part has it, also
/// where items were put there or taken out since.
pub fn refilled_may_go_early()
    ensures { RefilledMayGoEarly }
{}
