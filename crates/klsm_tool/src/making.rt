//! The board over which a script is run.
ghost use Rattle.std.specs.Prelude.{All, ◌≡◌, ◌≤◌, IfOk, length};
ghost use Rattle.klsm_run.specs.declared.limits.TheConstants.{PROGRAM_K, PROGRAM_THREADS};
ghost use Rattle.klsm_board.specs.Boards.{AreNewMembersOf, IsOf};
ghost use Rattle.klsm_board.specs.Together.{AreOf};
ghost use Rattle.klsm_tool.specs.Crews.{HaveNoSteps, board_sizes};

use klsm_board::{AllStandardMembers, Board, MOST_INSERTIONS, StandardBoard, StandardMember};
use klsm_words::ScriptSettings;
use std::alloc::{AllocError, Global};

/// The board of these settings with all its members in one hand, of which none has made a step, unless a growth
/// was refused. So `replay_script` wants them.
pub fn board_in_one_hand(
    alloc: Global,
    settings: &ScriptSettings,
) -> Result<(StandardBoard, AllStandardMembers), AllocError>
    requires some_thread { 1 ≤ settings.now.threads }
    requires threads { settings.now.threads ≤ PROGRAM_THREADS }
    requires k { settings.now.k ≤ PROGRAM_K }
    requires refill { settings.now.refill ≤ settings.now.k }
    ensures sizes { IfOk result (λ made. made.0.sizes ≡ board_sizes settings.now) }
    ensures of { IfOk result (λ made. AreOf made.1 made.0) }
    ensures fresh { IfOk result (λ made. HaveNoSteps made.1) }
{
    let (board, members) = board_for(alloc, settings)?;
    // No member is missing.
    let Ok(all) = board.gather(members) else {
        unreachable!();
    };
    Ok((board, all))
}

/// The board of these settings, and its members, unless a growth was refused.
pub(crate) fn board_for(
    alloc: Global,
    settings: &ScriptSettings,
) -> Result<(StandardBoard, Vec<StandardMember>), AllocError>
    requires some_thread { 1 ≤ settings.now.threads }
    requires threads { settings.now.threads ≤ PROGRAM_THREADS }
    requires k { settings.now.k ≤ PROGRAM_K }
    requires refill { settings.now.refill ≤ settings.now.k }
    ensures sizes { IfOk result (λ made. made.0.sizes ≡ board_sizes settings.now) }
    ensures of { IfOk result (λ made. All (λ member. IsOf member made.0) made.1.items) }
    ensures count { IfOk result (λ made. length made.1.items ≡ settings.now.threads) }
    ensures crew { IfOk result (λ made. AreNewMembersOf made.0 made.1.items) }
{
    let ScriptSettings {
        threads,
        k,
        refill,
        ..
    } = *settings;
    match Board::with_refill(alloc, threads, k, MOST_INSERTIONS, refill) {
        Ok(made) => Ok(made),
        // The settings are in range, so it is memory that is wanted.
        Err(_) => Err(AllocError),
    }
}
