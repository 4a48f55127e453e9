//! Laws of the definitions that the contracts cite. The functions do nothing: what they ensure is a
//! theorem.
ghost use Rattle.klsm_schedules.specs.Laws.{AccountsAddUp, AccountsLeaveLive, AcquiresFindContents, DeletionsAreFew, EarliesKeepOwnOrder, EarliesSkipFew, FirstWorldIsLawful, ListsHaveEvents, ListsTellFronts, LiveItemsDiffer, LooksTellFronts, NothingLeavesFew, PartsShareNone, SchedulesAreRuns, SchedulesKeepLawful, StepsKeepLawful, TakesKeepOwnOrder, TakesSkipFew};
ghost use Rattle.klsm_schedules.specs.LiveLaws.{FullHandsHaveLive, LaterItemsLived, LeastKeysHold};
ghost use Rattle.klsm_schedules.specs.OwnListLaws.{HandsAreApart, ListsKeepOwnOrder, ListsKeepOwnOrderEarly, ListsLeaveFew, ListsSkipFew, ListsSkipFewEarly, NextIsNewInHand, OwnDeletionsAreFew, RefilledMayFollowEarly};
ghost use Rattle.klsm_schedules.specs.OrderLaws.{ContentsAscend, FirstAreLeast, FoundAscends, HandsAscend, StepsKeepOrder};
ghost use Rattle.klsm_schedules.specs.Reached.{ReachesMostLeft, ReachesMostLeftRefilled, ReachesMostSkipped, ReachesMostSkippedEarly, ReachesMostSkippedEarlyRefilled, ReachesMostSkippedRefilled, two_threads};
ghost use Rattle.klsm_schedules.specs.WorkLaws.{ChildrenStayAbove, LeastOpenStaysAbove, SeenKeysHold, WorkHolds, WorkHoldsOfDeleted};

/// The first world is lawful.
pub fn first_world_is_lawful()
    ensures { FirstWorldIsLawful }
{}

/// A legal step leads from a lawful world to a lawful one, and so a schedule leads to a lawful
/// world.
pub fn steps_keep_lawful()
    ensures steps { StepsKeepLawful }
    ensures schedules { SchedulesKeepLawful }
{}

/// In a lawful world, a deletion that a thread may commit skips at most T·k live items, one by the
/// front at most (T-1)·k, and where it may answer nothing, at most (T-1)·k items live. The content of
/// a part that another thread holds counts too.
pub fn takes_skip_few()
    ensures takes { TakesSkipFew }
    ensures earlies { EarliesSkipFew }
    ensures nothing { NothingLeavesFew }
{}

/// In a lawful world, a deletion that a thread may commit skips no item that the thread itself
/// inserted, of those in its own part and in the shared one.
pub fn own_order_is_kept()
    ensures takes { TakesKeepOwnOrder }
    ensures earlies { EarliesKeepOwnOrder }
{}

/// With two threads, and at most one item in an own part, there are schedules that reach the
/// bounds, without a refill and with one.
pub fn bounds_are_reached()
    ensures takes { ReachesMostSkipped two_threads }
    ensures earlies { ReachesMostSkippedEarly two_threads }
    ensures nothing { ReachesMostLeft two_threads }
    ensures takes_refilled { ReachesMostSkippedRefilled two_threads }
    ensures earlies_refilled { ReachesMostSkippedEarlyRefilled two_threads }
    ensures nothing_refilled { ReachesMostLeftRefilled two_threads }
{}

/// The events of a schedule are a run of the relaxed queue of one thread.
pub fn schedules_are_runs()
    ensures { SchedulesAreRuns }
{}

/// Where two lawful worlds differ by an acquire of one part, the content recorded is the one that
/// was at home.
pub fn acquires_find_contents()
    ensures { AcquiresFindContents }
{}

/// In a lawful world a look notes the front of the shared part, be that free or held. So each look that a
/// thread's list notes was at the front of a world on the way, in which the list was what stands before it.
pub fn looks_tell_fronts()
    ensures steps { LooksTellFronts }
    ensures lists { ListsTellFronts }
{}

/// In a lawful world no item is live twice, and no two parts share one.
pub fn parts_share_none()
    ensures differ { LiveItemsDiffer }
    ensures apart { PartsShareNone }
{}

/// What a thread can know from its own list alone: a deletion or an answer "nothing" that may
/// follow it passes over few items of every lawful world that has this list, and a deletion over none
/// that the thread inserted and that lies in its own part or in the shared one. Of a deletion by the
/// front this is said of the worlds of that front. Where there is such a
/// world, within the quota, the parts in the thread's hand share no item, none of them has the item
/// of its next insertion, and its deletions are counted in a word. And what a refill of the least shared
/// items moved may go by the front that the refill left, all but the items of the front's own key.
pub fn own_lists_tell()
    ensures takes { ListsSkipFew }
    ensures earlies { ListsSkipFewEarly }
    ensures nothing { ListsLeaveFew }
    ensures takes_order { ListsKeepOwnOrder }
    ensures earlies_order { ListsKeepOwnOrderEarly }
    ensures apart { HandsAreApart }
    ensures new { NextIsNewInHand }
    ensures deletions { OwnDeletionsAreFew }
    ensures refilled { RefilledMayFollowEarly }
{}

/// In a lawful world a thread that has all parts in its hand has the live items there, and no others: those of
/// the shared part first, and then those of each thread's own part.
pub fn full_hands_have_live()
    ensures { FullHandsHaveLive }
{}

/// An item that lives later lived before, or was inserted since. So the least key of all items that live in a
/// lawful world is at most that of each item that lives later and was not inserted since.
pub fn least_keys_hold()
    ensures items { LaterItemsLived }
    ensures keys { LeastKeysHold }
{}

/// A key that is at most the lesser of the least key of all live items and the least one that a thread works at stays
/// so, where no thread inserts an item below it while it works at none below it: no item that lives later or is deleted
/// on the way is below it. Where whatever is inserted has a key no less than that of the item that its thread works
/// at, that is so of each such key.
pub fn work_holds()
    ensures live { WorkHolds }
    ensures deleted { WorkHoldsOfDeleted }
    ensures least { LeastOpenStaysAbove }
    ensures children { ChildrenStayAbove }
{}

/// What a thread saw of the keys that others work at, while it has their own parts in its hand, is so in each world to
/// which a schedule leads with its list: of several threads at once, where it has all their parts.
pub fn seen_keys_hold()
    ensures { SeenKeysHold }
{}

/// In each world to which a schedule leads the content of each part ascends, at home and in a hand, and so does what
/// an acquire found. The first n items of such a content are its least n.
pub fn contents_ascend()
    ensures steps { StepsKeepOrder }
    ensures contents { ContentsAscend }
    ensures hands { HandsAscend }
    ensures found { FoundAscends }
    ensures first { FirstAreLeast }
{}

/// A thread's own steps have its events of the schedule, in their order.
pub fn lists_have_events()
    ensures { ListsHaveEvents }
{}

/// In a lawful world the items that the account leaves are the live ones.
pub fn accounts_leave_live()
    ensures { AccountsLeaveLive }
{}

/// In a lawful world as many items were inserted as were deleted and are left. Where no thread
/// inserts more than a quota, all deletions together are at most T times the quota.
pub fn accounts_add_up()
    ensures sum { AccountsAddUp }
    ensures deletions { DeletionsAreFew }
{}
