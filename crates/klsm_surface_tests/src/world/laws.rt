//! The calls whose contracts are the laws of schedules. They do nothing at run time.

use klsm_world::laws;

#[test]
fn laws_of_worlds() {
    laws::first_world_is_lawful();
    laws::steps_keep_lawful();
    laws::parts_share_none();
    laws::contents_ascend();
    laws::full_hands_have_live();
    laws::refused_steps_are_not_legal();
}

#[test]
fn laws_of_deletions() {
    laws::takes_skip_few();
    laws::own_order_is_kept();
    laws::bounds_are_reached();
    laws::schedules_are_runs();
}

#[test]
fn laws_of_a_threads_own_list() {
    laws::acquires_find_contents();
    laws::looks_tell_fronts();
    laws::own_lists_tell();
    laws::lists_have_events();
}

#[test]
fn laws_of_keys_and_accounts() {
    laws::least_keys_hold();
    laws::work_holds();
    laws::seen_keys_hold();
    laws::accounts_leave_live();
    laws::accounts_add_up();
}
