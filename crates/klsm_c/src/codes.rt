//! What the calls answer.
ghost use Rattle.std.specs.Prelude.{◌≡◌};

/// Which interface this is. It changes whenever a struct, a code or an argument does.
#[unsafe(no_mangle)]
pub extern "C" fn klsm_abi() -> u32
    ensures { result ≡ 2 }
{
    2
}

/// The version of the library: 10,000 times the first of its three numbers, and 100 times the second, and
/// the third.
#[unsafe(no_mangle)]
pub extern "C" fn klsm_version() -> u32
    ensures { result ≡ 20000 }
{
    20_000
}

pub(crate) const OK: i32 = 0;

pub(crate) const NOTHING: i32 = 1;

pub(crate) const BUSY: i32 = 2;

pub(crate) const FULL: i32 = 3;

pub(crate) const NO_MEMORY: i32 = 4;

pub(crate) const SPENT: i32 = 5;

pub(crate) const NOT_OPEN: i32 = 6;

pub(crate) const OPEN: i32 = 7;

pub(crate) const BAD_COUNT: i32 = 8;

pub(crate) const BAD_K: i32 = 9;

pub(crate) const BAD_PICK: i32 = 10;

pub(crate) const SHARED: i32 = 11;

pub(crate) const BAD_REFILL: i32 = 12;
