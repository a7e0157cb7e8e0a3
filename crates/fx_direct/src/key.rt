//! Keys: the names of lives, and their bits.
ghost use Rattle.std.specs.Prelude.{◌≡◌, ◌%◌, ◌<◌};
ghost use Rattle.fx_direct.specs.Words.{KINDS};
ghost use Rattle.fx_direct.specs.Keys.{FitsBits, bits_of, key_in_bits};

/// The greatest number of slots of a ring, as in the kernel.
pub const MOST_SLOTS: u32 = 1 << 20;

/// The greatest number of lives of a slot. They have the numbers from 1 to this one.
pub const MOST_LIVES: u64 = (1 << 40) - 1;

/// The number of kinds of calls that user data can tell apart.
pub const KINDS: u8 = 16;

/// The name of one life of a slot. No two lives have the same key.
#[derive(Clone, Copy, Debug, PartialEq, Eq)]
pub struct LifeKey {
    /// The slot, from 0.
    pub slot: u32,
    /// The number of the life among those of the slot, from 1.
    pub number: u64,
}

impl LifeKey {
    /// Returns the user data of a call of this kind, 0 to 15, under the key: the number in the
    /// upper 40 bits, then the slot in 20 bits, then the kind in 4 bits. The kinds are the caller's
    /// own.
    #[inline(always)]
    pub fn to_bits(self, kind: u8) -> u64
        requires key { FitsBits self }
        requires kind { kind < KINDS }
        ensures { result ≡ bits_of self kind }
    {
        (self.number * (1 << 20) + u64::from(self.slot)) * 16 + u64::from(kind)
    }

    /// Returns the key and the kind of a call with this user data.
    #[inline(always)]
    pub fn from_bits(bits: u64) -> (LifeKey, u8)
        ensures key { result.0 ≡ key_in_bits bits }
        ensures kind { result.1 ≡ bits % KINDS }
    {
        (
            LifeKey {
                slot: (bits / 16 % (1 << 20)) as u32,
                number: bits / 16 / (1 << 20),
            },
            (bits % 16) as u8,
        )
    }
}
