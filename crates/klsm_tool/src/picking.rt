//! How the deletions of each thread pick, and when its member balances.
ghost use Rattle.std.specs.Prelude.{◌≡◌, IfOk};
ghost use Rattle.klsm_tool.specs.Picking.{ArePickers, picker_of};

use klsm_board::Balancing;
use klsm_parts::Choice;
use klsm_words::ScriptSettings;
use std::alloc::{AllocError, Global};

/// What the deletions of one thread go by.
#[derive(Drop)]
pub(crate) struct ThreadPicker {
    /// The thread whose deletions they are.
    pub thread: u64,
    /// Which candidate a deletion picks.
    pub choice: Choice,
    /// Before which deletions the thread's member balances, and with which other one.
    pub balancing: Balancing,
}

impl ThreadPicker {
    /// That of the thread of this number, which has deleted nothing yet. Each thread has a seed of its own.
    pub(crate) fn of(settings: &ScriptSettings, thread: u64) -> ThreadPicker
        ensures { result ≡ picker_of settings.now thread }
    {
        let seed = settings.seed.wrapping_add(thread);
        ThreadPicker {
            thread,
            choice: Choice::of(settings.pick, seed),
            balancing: Balancing::each(settings.balance),
        }
    }
}

/// The pickers of all threads, in their order.
pub(crate) fn pickers_of(
    alloc: Global,
    settings: &ScriptSettings,
) -> Result<Vec<ThreadPicker>, AllocError>
    ensures { IfOk result (λ pickers. ArePickers settings.now pickers.items) }
{
    let mut pickers = Vec::with_capacity(alloc, settings.threads)?;
    for thread in 0..settings.threads {
        pickers.push(ThreadPicker::of(settings, thread as u64))?;
    }
    Ok(pickers)
}
