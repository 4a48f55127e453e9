//! What `klsm --version` says behind the program's name.

/// The version of the program, and the logic in which it was proved. The first changes with each
/// release. The second is what `rt version` prints behind the name of the kit: kits that share a
/// logic prove the same, so their names are not said. docs/ARCHITECTURE.md names those that were used.
pub(crate) const VERSION: &str = "\
2.0.0, proved with \
rattle logic dac8208d650f15bf";
