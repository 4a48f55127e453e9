//! Items as C has them.
ghost use Rattle.std.specs.Prelude.{◌≡◌};
ghost use Rattle.klsm_c.specs.Items.{IsCopied, plain_of};

use klsm_run::Item;

/// An item, laid out as C lays it.
#[repr(C)]
#[derive(Clone, Copy, Debug, Default, PartialEq, Eq)]
pub struct PlainItem {
    pub key: u64,
    pub load: u64,
    /// How many insertions its owner had made before.
    pub number: u64,
    /// The number of the member that inserted it.
    pub owner: u32,
}

impl PlainItem {
    /// The same item.
    #[inline]
    pub fn of(item: Item) -> PlainItem
        ensures { result ≡ plain_of item }
    {
        PlainItem {
            key: item.key,
            load: item.load,
            number: item.stamp.number,
            owner: item.stamp.owner,
        }
    }
}

// Copies the first items, as far as there is room.
pub(crate) fn copy_items(items: &[Item], room: &mut [PlainItem])
    ensures { IsCopied items.now room.old room.new }
{
    let count = items.len().min(room.len());
    for i in 0..count {
        room[i] = PlainItem::of(items[i]);
    }
}
