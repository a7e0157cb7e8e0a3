//! Keys: the name of a file by its slot and its number.
ghost use Rattle.std.specs.Prelude.{◌≡◌};
ghost use Rattle.fx_lasting.specs.slots.ByKey.{bits_of_key, key_at, key_of_bits};

use crate::life::layout::MOST_SLOTS;
use crate::nodes::labels::number_of_mark;
use fx_base::Mark;

/// The name of a file of a table: its slot, and the number of its mark (`LastingTable::number_of`).
/// If no two files get the same mark, no other file of the table has the key or will have it, so a
/// call by key finds that file or none.
///
/// A key of the number 0 is a key of no file. A key doesn't name its table.
#[derive(Clone, Copy, Debug, PartialEq, Eq)]
pub struct Key {
    /// The slot of the file.
    pub slot: u32,
    /// The number of its mark [`Mark::Registered`]: `k * 2^32 + i`.
    pub number: u64,
}

impl Key {
    /// Returns the key of a file with this mark at a slot. Its number is 0 if the mark is that of
    /// a submission.
    pub fn new(slot: u32, mark: Mark) -> Key
        ensures { result ≡ key_at slot mark }
    {
        Key {
            slot,
            number: number_of_mark(mark),
        }
    }

    /// Returns the key in 64 bits, as for the data of `epoll` (epoll_ctl(2), `epoll_data`): a slot
    /// below 4,096 in 12 of them and the number in 51, or a slot below 1,048,576 in 20 and the
    /// number in 43. The lowest bit is 1 if the slot has 20 bits. Returns `None` if the key has
    /// more bits.
    pub fn to_bits(self) -> Option<u64>
        ensures { result ≡ bits_of_key self }
    {
        let slot = u64::from(self.slot);
        if self.slot < 4096 {
            if self.number < 1 << 51 {
                return Some(self.number * (1 << 13) + slot * 2);
            }
            return None;
        }
        if self.slot < MOST_SLOTS && self.number < 1 << 43 {
            return Some(self.number * (1 << 21) + slot * 2 + 1);
        }
        None
    }

    /// Returns the key of these bits. If [`Key::to_bits`] returned them, it is the same key again
    /// (`laws::keys_are_of_one_file`).
    pub fn from_bits(bits: u64) -> Key
        ensures { result ≡ key_of_bits bits }
    {
        if bits % 2 == 0 {
            return Key {
                slot: (bits / 2 % 4096) as u32,
                number: bits / (1 << 13),
            };
        }
        Key {
            slot: (bits / 2 % (1 << 20)) as u32,
            number: bits / (1 << 21),
        }
    }
}
