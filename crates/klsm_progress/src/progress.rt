//! Who hears of a long run.
ghost use Rattle.std.specs.Prelude.{◌≡◌};
ghost use Rattle.klsm_progress.specs.Words.{words_of};

use crate::hint::Hint;

/// What a run counts.
#[derive(Clone, Copy, Debug, PartialEq, Eq)]
pub enum Counted {
    /// Rows of a script that is read whole.
    RowsRead,
    /// Rows that threads run.
    RowsRun,
    /// Rows that are answered one by one.
    RowsAnswered,
    /// Nodes of a search.
    NodesExamined,
}

impl Counted {
    /// The words behind the number.
    pub fn words(self) -> &'static str
        ensures { result.now ≡ words_of self }
    {
        match self {
            Counted::RowsRead => "rows read",
            Counted::RowsRun => "rows run",
            Counted::RowsAnswered => "rows answered",
            Counted::NodesExamined => "nodes examined",
        }
    }
}

/// Hears how far a run has come, from any of its threads. Its calls have to return.
pub trait Progress: Sync {
    /// A count begins at 0. It goes up to `total`, where that is known.
    fn begins(&self, total: Option<u64>);

    /// So many more were done of what is counted.
    fn went_on(&self, counted: Counted, more: u64);

    /// The run has ended.
    fn ended(&self);

    /// Rows are read from now on.
    fn reads(&self) {}

    /// The run has refused something, and this is what was expected.
    fn advise(&self, _hint: &Hint) {}
}

/// Tells nobody.
#[derive(Clone, Copy, Debug, Drop)]
pub struct Silent;

impl Progress for Silent {
    fn begins(&self, _total: Option<u64>) {}

    fn went_on(&self, _counted: Counted, _more: u64) {}

    fn ended(&self) {}
}
