//! Where the least item of an LSM stands.
ghost use Rattle.std.specs.Prelude.{◌≡◌, ◌<◌, [], length, Some, slice_get, slice_index_or, option_map};
ghost use Rattle.klsm_parts.specs.LeastPlaces.{IsLeastPlace};

use klsm_lsm::Lsm;
use klsm_run::{Item, Run};

/// An item with the block that it is in, and its index there.
#[derive(Clone, Copy)]
pub(crate) struct Place {
    pub(crate) block: usize,
    pub(crate) index: usize,
    pub(crate) item: Item,
}

/// The least item, and where it stands, if there is one. It costs one comparison a block.
pub(crate) fn least_place<R: Run, const LEVELS: usize>(lsm: &Lsm<R, LEVELS>) -> Option<Place>
    ensures { IsLeastPlace lsm.now result }
{
    let block = lsm.least_block()?;
    Some(first_of(lsm, block))
}

/// The first item of a block.
#[inline]
pub(crate) fn first_of<R: Run, const LEVELS: usize>(lsm: &Lsm<R, LEVELS>, block: usize) -> Place
    requires { block < length lsm.now }
    ensures place { (result.block ≡ block) × (result.index ≡ 0) }
    ensures item { slice_get (slice_index_or lsm.now block []) 0 ≡ Some result.item }
{
    let item = lsm.block(block).item_at(0);
    Place {
        block,
        index: 0,
        item,
    }
}

/// The item of a place.
#[inline]
pub(crate) fn item_of(place: Option<Place>) -> Option<Item>
    ensures { result ≡ option_map (λ place. place.item) place }
{
    place.map(|place| place.item)
}
