//! What a worker does.
ghost use Rattle.std.specs.Prelude.{ℕ, ◌≡◌, ◌≤◌, ◌<◌, ◌+◌, ◌++◌, ◌↔◌, [], ◌∷◌, ◌⊎◌, IfOk, IfErr, IsTrue, MatchBool, length, false, None};
ghost use Rattle.klsm_run.specs.declared.item.Item.{Item};
ghost use Rattle.klsm_schedules.specs.OwnSteps.{inserted, deleted};
ghost use Rattle.klsm_board.specs.Boards.{own_steps};
ghost use Rattle.klsm_instance.specs.Selections.{value_of, weight_of};
ghost use Rattle.klsm_instance.specs.Limits.{IsInRange};
ghost use Rattle.klsm_instance.specs.Nodes.{IsNode, IsNodeOf, NoneAbove, level_in, picks_in};
ghost use Rattle.klsm_knapsack.specs.Numbers.{value_in};
ghost use Rattle.klsm_knapsack.specs.IncumbentSeats.{problem_of};
ghost use Rattle.klsm_knapsack.specs.Work.{ClosesBounded, HasNode, IsNodeItem, IsSplit, IsDone, HasWorked};
ghost use Rattle.klsm_knapsack.specs.Ends.{EndsAnswered, EndsRefused, SharesOrKeeps};
ghost use Rattle.klsm_knapsack.specs.Answers.{GainsNothing, GainsOthers, GainsSome, IsIdle};
ghost use Rattle.klsm_knapsack.specs.Workers.{Extends, HasRun, HasStoppedAt, InsertsNodes, IsAtWork, HasNotBegun, IsSameWorker, IsWorkerOf, KeepsCourse, WasRefusedFirst, work_by};

use crate::errors::Refusal;
use crate::passing::Passed;
use crate::search_state::{Listeners, NoRoom, SearchState, Worker};
use klsm_board::{Gate, InsertError};
use klsm_instance::{Instance, Node};
use klsm_progress::Progress;
use std::sync::Wait;

impl<const LEVELS: usize> Worker<LEVELS> {
    /// Inserts the root, as the first of all, and answers whether it was not refused.
    pub(crate) fn begin(
        &mut self,
        rt: &impl Wait,
        state: &SearchState<LEVELS>,
        instance: &Instance,
    ) -> bool
        requires of { IsWorkerOf state.now self.old }
        requires new { HasNotBegun self.old }
        requires room { 2 ≤ self.old.member.sizes.quota }
        ensures same { IsSameWorker self.old self.new }
        ensures course { KeepsCourse self.old self.new }
        ensures stopped { HasStoppedAt state.now.no_room self.new (own_steps self.new.member) }
        ensures begun { MatchBool result
            (IsAtWork state.now.no_room instance.now self.new × HasNode (work_by self.new).inserted 0 0)
            (self.new.refused ≡ None → ⊥) }
        ensures refused { result ≡ false → WasRefusedFirst self.new }
        ensures gains { IsTrue result →
            GainsOthers (own_steps self.old.member) (own_steps self.new.member) }
    {
        match self.insert(rt, state, instance, &instance.root()) {
            Ok(()) => true,
            Err(why) => {
                self.refused = Some(why);
                false
            }
        }
    }

    /// Passes the gate, works until it is idle or refused, and then shares what its own part has.
    pub(crate) fn run<G: Gate, P: Progress>(
        &mut self,
        rt: &impl Wait,
        state: &SearchState<LEVELS>,
        instance: &Instance,
        idle: u32,
        listeners: &Listeners<G, P>,
    )
        requires of { IsWorkerOf state.now self.old }
        requires problem { problem_of state.now.incumbent ≡ instance.now }
        requires begins { IsAtWork state.now.no_room instance.now self.old }
        ensures { HasRun state.now.no_room instance.now idle self.old self.new }
    {
        let passed = listeners.pass(self.member.number() as usize);
        let progress = listeners.progress;
        self.refused = self
            .work(rt, state, instance, idle, &passed, progress)
            .err();
        self.share(rt, state);
    }

    // Gives all the nodes that its own part still has, whatever made it stop: the others find them in the shared part
    // at once, and in the own part only where they find nothing else.
    fn share(&mut self, rt: &impl Wait, state: &SearchState<LEVELS>)
        requires of { IsWorkerOf state.now self.old }
        ensures same { IsSameWorker self.old self.new }
        ensures shares { SharesOrKeeps LEVELS self.old.member.number (own_steps self.old.member)
            (own_steps self.new.member) }
        ensures work { work_by self.new ≡ work_by self.old }
        ensures keeps { (self.new.picker ≡ self.old.picker)
            × (self.new.refused ≡ self.old.refused) }
    {
        // A refusal of this is none of the search: the nodes then stay where they are, and are found there.
        let _ = self.member.share(rt, &state.board);
    }

    // Takes nodes until the board answers `idle` times in a row that it has none, or the member has
    // no two insertions left. It has passed the gate before.
    fn work(
        &mut self,
        rt: &impl Wait,
        state: &SearchState<LEVELS>,
        instance: &Instance,
        idle: u32,
        passed: &Passed,
        progress: &impl Progress,
    ) -> Result<(), Refusal>
        requires of { IsWorkerOf state.now self.old }
        requires problem { problem_of state.now.incumbent ≡ instance.now }
        requires begins { IsAtWork state.now.no_room instance.now self.old }
        requires passed { passed.now.worker ≡ self.old.member.number }
        ensures same { IsSameWorker self.old self.new }
        ensures course { KeepsCourse self.old self.new }
        ensures goes_on { IfOk result (λ _. IsAtWork state.now.no_room instance.now self.new) }
        ensures inserts { IfOk result (λ _. InsertsNodes instance.now
            (work_by self.old).inserted (work_by self.new).inserted) }
        ensures idle { IfOk result (λ _. IsIdle idle self.new.member.sizes.quota
            (own_steps self.old.member) (own_steps self.new.member)) }
        ensures refused { IfErr result (λ why. EndsRefused LEVELS self.new.member.sizes.k
            self.new.member.number (own_steps self.new.member) why) }
        ensures memory { state.now.no_room ≡ NoRoom.SearchesAlone
            → IfErr result (λ why. why ≡ Refusal.NoMemory) }
    {
        // For the proof: that the gate was passed is a premise alone.
        let _ = passed;
        let mut nothings = 0;
        for _ in rt.forever() {
            if nothings == idle || !self.may_split(state) {
                return Ok(());
            }
            if self.turn(rt, state, instance, progress)? {
                nothings = 0;
            } else {
                nothings += 1;
            }
        }
        unreachable!()
    }

    // Whether the member may insert the children of one more node.
    fn may_split(&self, state: &SearchState<LEVELS>) -> bool
        requires { IsWorkerOf state.now self.now }
        ensures { IsTrue result ↔ (length (inserted (own_steps self.now.member)) + 2
            ≤ self.now.member.sizes.quota) }
    {
        self.member.inserted_count() + 2 <= state.board.quota()
    }

    // Takes one node, where there is one.
    fn turn(
        &mut self,
        rt: &impl Wait,
        state: &SearchState<LEVELS>,
        instance: &Instance,
        progress: &impl Progress,
    ) -> Result<bool, Refusal>
        requires of { IsWorkerOf state.now self.old }
        requires room { length (inserted (own_steps self.old.member)) + 2
            ≤ self.old.member.sizes.quota }
        requires problem { problem_of state.now.incumbent ≡ instance.now }
        requires begins { IsAtWork state.now.no_room instance.now self.old }
        ensures same { IsSameWorker self.old self.new }
        ensures course { KeepsCourse self.old self.new }
        ensures goes_on { IfOk result (λ _. IsAtWork state.now.no_room instance.now self.new) }
        ensures inserts { IfOk result (λ _. InsertsNodes instance.now
            (work_by self.old).inserted (work_by self.new).inserted) }
        ensures answers { IfOk result (λ some. MatchBool some
            (GainsSome (own_steps self.old.member) (own_steps self.new.member))
            (GainsNothing (own_steps self.old.member) (own_steps self.new.member))) }
        ensures refused { IfErr result (λ why. EndsRefused LEVELS self.new.member.sizes.k
            self.new.member.number (own_steps self.new.member) why) }
        ensures memory { state.now.no_room ≡ NoRoom.SearchesAlone
            → IfErr result (λ why. why ≡ Refusal.NoMemory) }
    {
        let Some(item) = self.member.delete_min(rt, &state.board, &mut self.picker) else {
            return Ok(false);
        };
        self.pace.count(progress);
        self.examine(rt, state, instance, item.load, progress)?;
        Ok(true)
    }

    // Closes the node that a load stands for, or splits it. A load that stands for none is let go.
    fn examine(
        &mut self,
        rt: &impl Wait,
        state: &SearchState<LEVELS>,
        instance: &Instance,
        load: u64,
        progress: &impl Progress,
    ) -> Result<(), Refusal>
        requires of { IsWorkerOf state.now self.old }
        requires room { length (inserted (own_steps self.old.member)) + 2
            ≤ self.old.member.sizes.quota }
        requires problem { problem_of state.now.incumbent ≡ instance.now }
        requires answered { state.now.no_room ≡ NoRoom.Refuses
            → EndsAnswered self.old.member.number (own_steps self.old.member) }
        ensures same { IsSameWorker self.old self.new }
        ensures course { KeepsCourse self.old self.new }
        ensures answered { IfOk result (λ _. state.now.no_room ≡ NoRoom.Refuses
            → EndsAnswered self.new.member.number (own_steps self.new.member)) }
        ensures extends { IfOk result (λ _.
            Extends instance.now (work_by self.old) (work_by self.new)) }
        ensures done { IfOk result (λ _. (x : Item) → x.load ≡ load → IsNodeItem instance.now x
            → IsDone instance.now (work_by self.new) x) }
        ensures raises { IsNode instance.now (level_in load) (picks_in load)
            → value_of instance.now (picks_in load) ≤ value_in (work_by self.new).found }
        ensures closes { IsNode instance.now (level_in load) (picks_in load)
            → self.new.is_alone ≡ false
            → ClosesBounded instance.now load (work_by self.old) (work_by self.new) }
        ensures alone { IsTrue self.old.is_alone → IsTrue self.new.is_alone
            × ((work_by self.new).inserted ≡ (work_by self.old).inserted) }
        ensures keeps { state.now.no_room ≡ NoRoom.Refuses
            → self.new.is_alone ≡ self.old.is_alone }
        ensures gains { IfOk result (λ _.
            GainsOthers (own_steps self.old.member) (own_steps self.new.member)) }
        ensures refused { IfErr result (λ why. EndsRefused LEVELS self.new.member.sizes.k
            self.new.member.number (own_steps self.new.member) why) }
        ensures memory { state.now.no_room ≡ NoRoom.SearchesAlone
            → IfErr result (λ why. why ≡ Refusal.NoMemory) }
    {
        let Some(node) = instance.node_of(load) else {
            return Ok(());
        };
        let found = state.incumbent.raise_to(&mut self.seat, instance, &node);
        if node.level == instance.len() || instance.bound_of(&node) <= found {
            return Ok(());
        }
        self.expand(rt, state, instance, node, progress)
    }

    // Splits a node. Where the board has no room for a child, and the search goes on without it, the node
    // is searched here; and so is each later one, since the board is then emptied and not filled again.
    fn expand(
        &mut self,
        rt: &impl Wait,
        state: &SearchState<LEVELS>,
        instance: &Instance,
        node: Node,
        progress: &impl Progress,
    ) -> Result<(), Refusal>
        requires of { IsWorkerOf state.now self.old }
        requires room { length (inserted (own_steps self.old.member)) + 2
            ≤ self.old.member.sizes.quota }
        requires problem { problem_of state.now.incumbent ≡ instance.now }
        requires range { IsInRange instance.now }
        requires node { IsNodeOf instance.now node }
        requires free { node.level < length instance.now.things }
        requires answered { state.now.no_room ≡ NoRoom.Refuses
            → EndsAnswered self.old.member.number (own_steps self.old.member) }
        ensures same { IsSameWorker self.old self.new }
        ensures course { KeepsCourse self.old self.new }
        ensures answered { IfOk result (λ _. state.now.no_room ≡ NoRoom.Refuses
            → EndsAnswered self.new.member.number (own_steps self.new.member)) }
        ensures extends { IfOk result (λ _.
            Extends instance.now (work_by self.old) (work_by self.new)) }
        ensures done { IfOk result (λ _.
            NoneAbove instance.now node.level node.picks (value_in (work_by self.new).found)
            ⊎ IsSplit instance.now (work_by self.new).inserted node.level node.picks) }
        ensures finds { (work_by self.old).found ≤ (work_by self.new).found }
        ensures splits { self.new.is_alone ≡ false
            → (work_by self.new).found ≡ (work_by self.old).found }
        ensures alone { IsTrue self.old.is_alone → IsTrue self.new.is_alone
            × ((work_by self.new).inserted ≡ (work_by self.old).inserted) }
        ensures keeps { state.now.no_room ≡ NoRoom.Refuses
            → self.new.is_alone ≡ self.old.is_alone }
        ensures goes_on { state.now.no_room ≡ NoRoom.SearchesAlone
            → IfErr result (λ why. why ≡ Refusal.NoMemory) }
        ensures gains { IfOk result (λ _.
            GainsOthers (own_steps self.old.member) (own_steps self.new.member)) }
        ensures refused { IfErr result (λ why. EndsRefused LEVELS self.new.member.sizes.k
            self.new.member.number (own_steps self.new.member) why) }
    {
        if !self.is_alone {
            match self.split(rt, state, instance, &node) {
                Err(Refusal::Full) if state.no_room == NoRoom::SearchesAlone => {}
                told => return told,
            }
            self.is_alone = true;
        }
        state
            .incumbent
            .search_alone(&mut self.seat, instance, node, &mut self.pace, progress);
        Ok(())
    }

    // Inserts the children of a node.
    fn split(
        &mut self,
        rt: &impl Wait,
        state: &SearchState<LEVELS>,
        instance: &Instance,
        node: &Node,
    ) -> Result<(), Refusal>
        requires of { IsWorkerOf state.now self.old }
        requires room { length (inserted (own_steps self.old.member)) + 2
            ≤ self.old.member.sizes.quota }
        requires node { IsNodeOf instance.now node.now }
        requires free { node.now.level < length instance.now.things }
        ensures same { IsSameWorker self.old self.new }
        ensures course { KeepsCourse self.old self.new }
        ensures answered { IfOk result (λ _.
            EndsAnswered self.new.member.number (own_steps self.new.member)) }
        ensures extends { Extends instance.now (work_by self.old) (work_by self.new) }
        ensures split { IfOk result (λ _. IsSplit instance.now (work_by self.new).inserted
            node.now.level node.now.picks) }
        ensures finds { (work_by self.new).found ≡ (work_by self.old).found }
        ensures keeps { self.new.is_alone ≡ self.old.is_alone }
        ensures gains { GainsOthers (own_steps self.old.member) (own_steps self.new.member) }
        ensures refused { IfErr result (λ why. EndsRefused LEVELS self.new.member.sizes.k
            self.new.member.number (own_steps self.new.member) why) }
    {
        self.insert(rt, state, instance, &instance.leaving(node))?;
        if let Some(child) = instance.taking(node) {
            self.insert(rt, state, instance, &child)?;
        }
        Ok(())
    }

    /// Inserts a node.
    pub(crate) fn insert(
        &mut self,
        rt: &impl Wait,
        state: &SearchState<LEVELS>,
        instance: &Instance,
        node: &Node,
    ) -> Result<(), Refusal>
        requires of { IsWorkerOf state.now self.old }
        requires room { length (inserted (own_steps self.old.member))
            < self.old.member.sizes.quota }
        requires node { IsNodeOf instance.now node.now }
        ensures same { IsSameWorker self.old self.new }
        ensures course { KeepsCourse self.old self.new }
        ensures inserts { IfOk result (λ _. (x : Item) × IsNodeItem instance.now x
            × (level_in x.load ≡ node.now.level) × (picks_in x.load ≡ node.now.picks)
            × ((work_by self.new).inserted ≡ (work_by self.old).inserted ++ x ∷ [])) }
        ensures refuses { IfErr result (λ why.
            (work_by self.new).inserted ≡ (work_by self.old).inserted) }
        ensures deletes { (work_by self.new).deleted ≡ (work_by self.old).deleted }
        ensures finds { (work_by self.new).found ≡ (work_by self.old).found }
        ensures keeps { (self.new.refused ≡ self.old.refused)
            × (self.new.is_alone ≡ self.old.is_alone) }
        ensures answered { IfOk result (λ _.
            EndsAnswered self.new.member.number (own_steps self.new.member)) }
        ensures gains { GainsOthers (own_steps self.old.member) (own_steps self.new.member) }
        ensures refused { IfErr result (λ why. EndsRefused LEVELS self.new.member.sizes.k
            self.new.member.number (own_steps self.new.member) why) }
    {
        let key = instance.key_of(node);
        let load = instance.load_of(node);
        match self.member.insert(rt, &state.board, key, load) {
            Ok(_) => Ok(()),
            Err(InsertError::Spent) => unreachable!(),
            Err(InsertError::Full) => Err(Refusal::Full),
            Err(InsertError::NoMemory) => Err(Refusal::NoMemory),
        }
    }
}
