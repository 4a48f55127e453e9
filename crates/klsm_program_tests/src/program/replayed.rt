//! Scripts that are run with settings of the test's own, over a board of their own or over one that
//! is given.

use klsm_test_support::InOneHand;
use klsm_tool::{
    End, Report, Script, ScriptSettings, Silent, board_in_one_hand, replay_script, replay_with,
};

/// What a run wrote, and what it says of how it ended.
#[derive(Drop)]
pub(super) struct Run {
    pub text: Vec<u8>,
    pub report: Report,
}

impl Run {
    /// Whether it wrote this text, ended so, and says that it wrote all of it.
    pub(super) fn is(&self, text: &[u8], end: End) -> bool {
        let written = text.len() as u64;
        self.text.as_slice() == text && self.report == Report { end, written }
    }
}

/// How many items a member has inserted and deleted.
pub(super) type Counts = (u64, u64);

/// A run with a board of its own, whose text goes behind this one. `None` where no board has these
/// settings.
pub(super) fn run_over(
    rt: &impl AllocGlobal,
    script: &[u8],
    settings: &ScriptSettings,
    empty: Vec<u8>,
) -> Option<Run> {
    let has_board = settings.threads >= 1 && settings.threads <= 16 && settings.k <= 64;
    if !has_board || settings.refill > settings.k {
        return None;
    }
    let mut text = empty;
    let report = replay_with(rt, script, &mut text, settings, &Silent);
    Some(Run { text, report })
}

/// A run over a board that is made for it, and the members' counts afterwards. The text goes behind
/// this one.
pub(super) fn run_on(
    rt: &impl AllocGlobal,
    script: &[u8],
    settings: &ScriptSettings,
    empty: Vec<u8>,
) -> Option<(Run, Vec<Counts>)> {
    let has_board = settings.threads >= 1 && settings.threads <= 16 && settings.k <= 64;
    if !has_board || settings.refill > settings.k {
        return None;
    }
    let Ok((board, all)) = board_in_one_hand(rt.alloc(), settings) else {
        return None;
    };
    let mut hand = InOneHand { board, all };
    let mut script = Script::new(rt.alloc(), script);
    let mut text = empty;
    let lent = &mut hand;
    let report = replay_script(
        rt,
        &mut script,
        &mut text,
        settings,
        &lent.board,
        &mut lent.all,
        &Silent,
    );
    let counts = hand.counts(rt.alloc())?;
    Some((Run { text, report }, counts))
}
