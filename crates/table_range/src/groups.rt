//! The groups of the range, and the places of their words. A line is 8 words. The question word and
//! each group's word have a line of their own, with two lines of the table between them. Passes
//! that fill and empty a small table's last free slots meet less in small groups.
ghost use Rattle.std.specs.Prelude.{◌≡◌, ◌<◌, ◌≤◌, ◌^◌, ◌↔◌, IsTrue};
ghost use Rattle.table_range.specs.Groups.{group_place, group_size, groups_in, group_len};
ghost use Rattle.table_range.specs.Counts.{CountsAll};

/// The greatest number of slots of a range.
pub const MOST_IN_RANGE: u32 = 1_048_576;

/// The greatest number of groups.
pub const MOST_GROUPS: u32 = 64;

/// The place of the question word.
pub const QUESTION: usize = 0;

/// The first place after the groups' words.
pub const RANGE_END: u32 = 534;

/// Returns the number of slots of a group, in a range of `len` slots. The last group may have
/// fewer.
#[inline(always)]
pub fn group_size(len: u32) -> u32
    ensures { result ≡ group_size len }
{
    if len > 65_536 {
        16_384
    } else if len > 4096 {
        1024
    } else if len > 256 {
        64
    } else {
        4
    }
}

/// Returns the exponent of the size of a group, of which it is the power of 2.
pub fn group_bits(len: u32) -> u32
    ensures size { group_size len ≡ 2 ^ result }
    ensures few { result < 32 }
{
    if len > 65_536 {
        14
    } else if len > 4096 {
        10
    } else if len > 256 {
        6
    } else {
        2
    }
}

/// Returns the number of groups of a range of `len` slots.
#[inline(always)]
pub fn groups_in(len: u32) -> u32
    requires { len ≤ MOST_IN_RANGE }
    ensures { result ≡ groups_in len }
{
    if len > 65_536 {
        (len + 16_383) / 16_384
    } else if len > 4096 {
        (len + 1023) / 1024
    } else if len > 256 {
        (len + 63) / 64
    } else {
        (len + 3) / 4
    }
}

/// Returns the number of slots of a group of a range of `len` slots.
#[inline(always)]
pub fn group_len(len: u32, group: u32) -> u32
    requires size { len ≤ MOST_IN_RANGE }
    requires group { group < groups_in len }
    ensures { result ≡ group_len len group }
{
    let each = group_size(len);
    let left = len - group * each;
    if left < each { left } else { each }
}

/// Checks whether a group's word counts all slots of the group.
#[inline(always)]
pub fn counts_all(word: u64, len: u32, group: u32) -> bool
    requires size { len ≤ MOST_IN_RANGE }
    requires group { group < groups_in len }
    ensures { IsTrue result ↔ CountsAll len group word }
{
    word == u64::from(group_len(len, group))
}

/// Returns the place of a group's word.
#[inline(always)]
pub fn group_place(group: u32) -> usize
    requires { group < MOST_GROUPS }
    ensures { result ≡ group_place group }
{
    22 + 8 * group as usize
}
