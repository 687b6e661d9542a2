//! The version of the programs.

/// The version of the programs, and the toolchain with which they are checked. `--version` prints both after the
/// program's name.
pub const VERSION: &str = "1.16.0\nchecked with rattle-kit-13b logic dac8208d650f15bf";
