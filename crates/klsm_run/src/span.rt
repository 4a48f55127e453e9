//! Which part of a store a run is.
ghost use Rattle.std.specs.Prelude.{◌≡◌, ◌+◌, ◌-◌, ◌<◌, ◌≤◌, ◌++◌, length, remove, take, drop, slice_get, Some};
ghost use Rattle.klsm_run.specs.Content.{sorted, IsAscending, ShareNone};
ghost use Rattle.klsm_run.specs.Stores.{spanned, IsSpan};

use crate::Item;
use crate::uniting::unite_back;

/// The places of a store from `start` up to `end`. What lies in the others is of no meaning, and is
/// never cleared.
#[derive(Clone, Copy)]
pub(crate) struct Span {
    pub(crate) start: usize,
    pub(crate) end: usize,
}

impl Span {
    /// The first places of a store.
    #[inline]
    pub(crate) fn first(count: usize) -> Self
        ensures start { result.start ≡ 0 }
        ensures end { result.end ≡ count }
    {
        Span {
            start: 0,
            end: count,
        }
    }

    /// The number of places.
    #[inline]
    pub(crate) fn len(&self) -> usize
        requires { self.now.start ≤ self.now.end }
        ensures { result ≡ self.now.end - self.now.start }
    {
        self.end - self.start
    }

    /// The items in these places.
    #[inline]
    pub(crate) fn of<'a>(&self, store: &'a [Item]) -> &'a [Item]
        requires { IsSpan self.now (length store.now) }
        ensures { result.now ≡ spanned self.now store.now }
    {
        &store[self.start..self.end]
    }

    /// Takes an item out. The items on the shorter side of it move by one place.
    #[inline]
    pub(crate) fn remove_at(&mut self, store: &mut [Item], index: usize) -> Item
        requires within { IsSpan self.old (length store.old) }
        requires index { index < self.old.end - self.old.start }
        ensures item { slice_get (spanned self.old store.old) index ≡ Some result }
        ensures rest { spanned self.new store.new ≡ remove (spanned self.old store.old) index }
        ensures within { IsSpan self.new (length store.new) }
        ensures len { length store.new ≡ length store.old }
    {
        let at = self.start + index;
        let item = store[at];
        if index <= self.end - at - 1 {
            store.copy_within(self.start..at, self.start + 1);
            self.start += 1;
        } else {
            store.copy_within(at + 1..self.end, at);
            self.end -= 1;
        }
        item
    }

    /// Puts other items in, where they belong. Where they find no room behind, the span moves to
    /// the front first.
    pub(crate) fn unite(&mut self, store: &mut [Item], other: &[Item])
        requires within { IsSpan self.old (length store.old) }
        requires room { self.old.end - self.old.start + length other.now ≤ length store.old }
        requires ascending { IsAscending (spanned self.old store.old) }
        requires other_ascending { IsAscending other.now }
        requires apart { ShareNone (spanned self.old store.old) other.now }
        ensures united { spanned self.new store.new
            ≡ sorted (spanned self.old store.old ++ other.now) }
        ensures within { IsSpan self.new (length store.new) }
        ensures len { length store.new ≡ length store.old }
    {
        let count = self.end - self.start;
        let start = with_room(store, self.start, count, other.len());
        unite_at(store, start, count, other);
        self.start = start;
        self.end = start + count + other.len();
    }
}

// Moves `count` items from `start` on to the front, unless there is room for `more` behind them. It
// answers where they start.
fn with_room(store: &mut [Item], start: usize, count: usize, more: usize) -> usize
    requires within { start + count ≤ length store.old }
    requires room { count + more ≤ length store.old }
    ensures room { result + count + more ≤ length store.new }
    ensures kept { take count (drop result store.new) ≡ take count (drop start store.old) }
    ensures len { length store.new ≡ length store.old }
{
    if more <= store.len() - start - count {
        return start;
    }
    to_front(store, start, count);
    0
}

/// Moves `count` items from `start` on to the front.
pub(crate) fn to_front(store: &mut [Item], start: usize, count: usize)
    requires { start + count ≤ length store.old }
    ensures kept { take count store.new ≡ take count (drop start store.old) }
    ensures len { length store.new ≡ length store.old }
{
    store.copy_within(start..start + count, 0);
}

// Unites `count` items from `start` on with others, which go behind them.
fn unite_at(store: &mut [Item], start: usize, count: usize, other: &[Item])
    requires room { start + count + length other.now ≤ length store.old }
    requires ascending { IsAscending (take count (drop start store.old)) }
    requires other_ascending { IsAscending other.now }
    requires apart { ShareNone (take count (drop start store.old)) other.now }
    ensures united { take (count + length other.now) (drop start store.new)
        ≡ sorted (take count (drop start store.old) ++ other.now) }
    ensures len { length store.new ≡ length store.old }
{
    unite_back(&mut store[start..start + count + other.len()], count, other);
}

/// Puts items into the first places of a store.
pub(crate) fn put_first(store: &mut [Item], items: &[Item])
    requires { length items.now ≤ length store.old }
    ensures items { take (length items.now) store.new ≡ items.now }
    ensures len { length store.new ≡ length store.old }
{
    store[..items.len()].copy_from_slice(items);
}
