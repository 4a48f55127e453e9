//! The steps on the incumbent.
ghost use Rattle.std.specs.Prelude.{ℕ, ◌≡◌, ◌≤◌, ◌<◌, ◌⊎◌, [], ◌∷◌, max, IfOk};
ghost use Rattle.klsm_instance.specs.Selections.{Problem, value_of};
ghost use Rattle.klsm_instance.specs.Limits.{IsInRange};
ghost use Rattle.klsm_instance.specs.Nodes.{IsNodeOf};
ghost use Rattle.klsm_knapsack.specs.Numbers.{IsIncumbent, value_in};
ghost use Rattle.klsm_knapsack.specs.Highest.{nothing_yet, together, LastSeen};
ghost use Rattle.klsm_knapsack.specs.IncumbentSeats.{found_by, raised_by, IsSeatAt, problem_of};

use crate::incumbent::{Incumbent, IncumbentSeat};
use crate::rule::{About, Another, Found, Raised, Together};
use atomic_table::Table;
use klsm_instance::{Instance, Node, packed, unpacked};
use std::alloc::{AllocError, Global};
use std::marker::Brand;

impl Incumbent {
    /// An incumbent of value 0 that takes nothing, and its first seat.
    pub fn new(alloc: Global, instance: &Instance) -> Result<(Incumbent, IncumbentSeat), AllocError>
        ensures { IfOk result (λ r. (problem_of r.0 ≡ instance.now) × IsSeatAt r.0 r.1
            × (r.1.table_seat.me.0 ≡ nothing_yet)) }
    {
        let (table, table_seat) = Table::of_words(alloc, &[0], instance)?;
        Ok((Incumbent { table }, IncumbentSeat { table_seat }))
    }

    /// A seat for one thread more, which knows nothing yet.
    pub fn split(&self, seat: &mut IncumbentSeat) -> IncumbentSeat
        requires { IsSeatAt self.now seat.old }
        ensures same { seat.new.table_seat.table_id ≡ seat.old.table_seat.table_id }
        ensures kept { seat.new.table_seat.me.0 ≡ seat.old.table_seat.me.0 }
        ensures new { IsSeatAt self.now result × (result.table_seat.me.0 ≡ nothing_yet) }
    {
        IncumbentSeat {
            table_seat: self
                .table
                .shared
                .split_seat::<Another>(&mut seat.table_seat),
        }
    }

    /// What two seats knew is known to one.
    pub fn join(&self, seat: &mut IncumbentSeat, other: IncumbentSeat)
        requires one { IsSeatAt self.now seat.old }
        requires other { IsSeatAt self.now other }
        ensures same { seat.new.table_seat.table_id ≡ seat.old.table_seat.table_id }
        ensures both { seat.new.table_seat.me.0 ≡ together seat.old.table_seat.me.0 other.table_seat.me.0 }
    {
        let IncumbentSeat { table_seat } = other;
        self.table
            .shared
            .join_seat::<Together>(&mut seat.table_seat, table_seat);
    }

    /// The number that the word has: the value and the picks of a feasible selection.
    #[inline]
    pub fn load(&self, seat: &mut IncumbentSeat) -> u64
        requires { IsSeatAt self.now seat.old }
        ensures same { seat.new.table_seat.table_id ≡ seat.old.table_seat.table_id }
        ensures found { (found_by seat.new ≡ result) × (found_by seat.old ≤ result) }
        ensures raised { raised_by seat.new ≡ raised_by seat.old }
        ensures incumbent { IsIncumbent (problem_of self.now) result }
    {
        load_about::<Brand>(self, seat)
    }

    /// Raises the word to a number, where that is greater, and answers what the word then has.
    ///
    /// A load comes first, so that a thread which has nothing greater leaves the word's cache line
    /// to all.
    #[inline]
    pub fn raise(&self, seat: &mut IncumbentSeat, number: u64) -> u64
        requires seat { IsSeatAt self.now seat.old }
        requires number { IsIncumbent (problem_of self.now) number }
        ensures same { seat.new.table_seat.table_id ≡ seat.old.table_seat.table_id }
        ensures found { (found_by seat.new ≡ result) × (found_by seat.old ≤ result)
            × (number ≤ result) }
        ensures raised { (raised_by seat.new ≡ raised_by seat.old)
            ⊎ (raised_by seat.new ≡ number ∷ raised_by seat.old) }
        ensures incumbent { IsIncumbent (problem_of self.now) result }
    {
        let found = self.load(seat);
        if number <= found {
            found
        } else {
            self.fetch_max(seat, number)
        }
    }

    /// Raises the word to what a node takes, and answers the value that the word then has.
    pub(crate) fn raise_to(&self, seat: &mut IncumbentSeat, instance: &Instance, node: &Node) -> u64
        requires seat { IsSeatAt self.now seat.old }
        requires problem { problem_of self.now ≡ instance.now }
        requires node { IsNodeOf instance.now node.now }
        requires range { IsInRange instance.now }
        ensures same { seat.new.table_seat.table_id ≡ seat.old.table_seat.table_id }
        ensures found { (result ≡ value_in (found_by seat.new))
            × (found_by seat.old ≤ found_by seat.new) }
        ensures raises { value_of instance.now node.now.picks ≤ result }
    {
        let number = packed(node.taken.value, node.picks);
        let found = self.raise(seat, number);
        let (value, _) = unpacked(found);
        value
    }

    // Raises the word by one step.
    fn fetch_max(&self, seat: &mut IncumbentSeat, number: u64) -> u64
        requires seat { IsSeatAt self.now seat.old }
        requires number { IsIncumbent (problem_of self.now) number }
        ensures same { seat.new.table_seat.table_id ≡ seat.old.table_seat.table_id }
        ensures found { (found_by seat.new ≡ result) × (found_by seat.old ≤ result)
            × (number ≤ result) }
        ensures raised { raised_by seat.new ≡ number ∷ raised_by seat.old }
        ensures incumbent { IsIncumbent (problem_of self.now) result }
    {
        let before = fetch_max_about::<Brand>(self, seat, number);
        before.max(number)
    }

    /// The number at the end: of a feasible selection, and no less than any that the seat found.
    pub fn finish(self, seat: IncumbentSeat) -> u64
        requires { IsSeatAt self seat }
        ensures rule { LastSeen (Unit {0}) (problem_of self) seat.table_seat.id seat.table_seat.me.0
            result }
        ensures incumbent { IsIncumbent (problem_of self) result }
        ensures found { found_by seat ≤ result }
    {
        let Incumbent { table } = self;
        let IncumbentSeat { table_seat } = seat;
        let closed = table.close_with(table_seat);
        let number = closed.word(0);
        closed.free();
        number
    }
}

#[inline]
fn load_about<D: About>(incumbent: &Incumbent, seat: &mut IncumbentSeat) -> u64
    requires problem { D.problem ≡ problem_of incumbent.now }
    requires seat { IsSeatAt incumbent.now seat.old }
    ensures same { seat.new.table_seat.table_id ≡ seat.old.table_seat.table_id }
    ensures found { (found_by seat.new ≡ result) × (found_by seat.old ≤ result) }
    ensures raised { raised_by seat.new ≡ raised_by seat.old }
    ensures incumbent { IsIncumbent (problem_of incumbent.now) result }
{
    incumbent
        .table
        .shared
        .load::<Found<D>>(&mut seat.table_seat, 0)
}

// It answers the number that the word had before.
fn fetch_max_about<D: About>(incumbent: &Incumbent, seat: &mut IncumbentSeat, number: u64) -> u64
    requires problem { D.problem ≡ problem_of incumbent.now }
    requires seat { IsSeatAt incumbent.now seat.old }
    requires number { IsIncumbent (problem_of incumbent.now) number }
    ensures same { seat.new.table_seat.table_id ≡ seat.old.table_seat.table_id }
    ensures found { (found_by seat.new ≡ max result number) × (found_by seat.old ≤ result) }
    ensures raised { raised_by seat.new ≡ number ∷ raised_by seat.old }
    ensures incumbent { IsIncumbent (problem_of incumbent.now) result }
{
    incumbent
        .table
        .shared
        .fetch_max::<Raised<D>>(&mut seat.table_seat, 0, number)
}
