//! The laws of schedules, and one of the refusals of a world. The functions do nothing: what they ensure is a theorem.
ghost use Rattle.klsm_world.specs.Refusals.{RefusedIsNotLegal};

pub use klsm_schedules::laws::{
    accounts_add_up, accounts_leave_live, acquires_find_contents, bounds_are_reached,
    contents_ascend, first_world_is_lawful, full_hands_have_live, least_keys_hold,
    lists_have_events, looks_tell_fronts, own_lists_tell, own_order_is_kept, parts_share_none,
    schedules_are_runs, seen_keys_hold, steps_keep_lawful, takes_skip_few, work_holds,
};

/// In a lawful world a step that is refused is not legal, memory aside.
pub fn refused_steps_are_not_legal()
    ensures { RefusedIsNotLegal }
{}
