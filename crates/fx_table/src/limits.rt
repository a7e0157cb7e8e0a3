//! The limits of a shared table, and the file numbers of each chain.
ghost use Rattle.std.specs.Prelude.{◌≡◌, ◌≤◌};
ghost use Rattle.fx_table.specs.Numbers.{numbers_for};

/// The greatest number of chains of a table.
pub const MAX_CHAINS: u32 = 1023;

/// The greatest number of passes of a table.
pub const MAX_PASSES: u32 = 16;

/// The number of look-ups of a pass.
pub const PASS_LOOKS: u32 = 1 << 20;

/// The first file number of the first chain. The files in the table at its opening have the numbers
/// of their slots, which are below it.
pub const FIRST_CHAIN_NUMBER: u32 = 256;

/// The number of file numbers of each chain.
pub const CHAIN_NUMBERS: u32 = 64;

/// Returns the number of file numbers of a table with `chains` chains, at most 1,023: the number
/// after the last chain's last. Chain `c`, from 1, has the numbers from `numbers_for(c - 1)` up to,
/// but not including, `numbers_for(c)`.
pub fn numbers_for(chains: u32) -> u32
    requires { chains ≤ MAX_CHAINS }
    ensures { result ≡ numbers_for chains }
{
    FIRST_CHAIN_NUMBER + CHAIN_NUMBERS * chains
}
