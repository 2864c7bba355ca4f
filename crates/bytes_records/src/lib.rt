// What one record of a packed tree tells: the bytes that it takes, the records directly below it, whether it is a constant.

#![tactic(auto, unfolding(crate::specs::Marks::mark_of, crate::specs::Marks::find_mark, crate::specs::Marks::marks, crate::specs::Marks::children, rules::specs::Outcome::choose, rules::specs::Numbers::code, rules::specs::Numbers::numbers_at, rules::specs::Numbers::is_set, rules::specs::Records::size_of, rules::specs::Records::numbers_of, rules::specs::Records::widths, rules::specs::Records::width, rules::specs::Records::fields, rules::specs::FirstWalk::members, rules::specs::FirstWalk::constant_at))]

ghost use Rattle.std.specs.Prelude.{◌≡◌, ◌+◌, ◌≤◌, ◌<◌, length, leb};
ghost use Rattle.rules.specs.Numbers.{number_at, numbers_at};
ghost use Rattle.rules.specs.Records.{size_of, numbers_of};
ghost use Rattle.rules.specs.FirstWalk.{members, constant_at, constants_at};
ghost use Rattle.bytes_records.specs.Marks.{mark_of, children};
ghost use Rattle.bytes_records.specs.Constants.{is_some};

use bytes_read::{mark_at, number_at};

pub mod offsets;

// Marks as numbers: the first letter times 256, and the second.
// They stay numbers: document 01 matches "the mark as a number" over all expression kinds, and `size_of` and `children` answer for every mark.
pub const JT: u32 = 0x4a54;

pub const ID: u32 = 0x4944;

pub const TV: u32 = 0x5456;

pub const VA: u32 = 0x5641;

pub const AR: u32 = 0x4152;

pub const OX: u32 = 0x4f58;

pub const UN: u32 = 0x554e;

pub const BI: u32 = 0x4249;

pub const AS: u32 = 0x4153;

pub const LO: u32 = 0x4c4f;

pub const ER: u32 = 0x4552;

pub const IM: u32 = 0x494d;

pub const AP: u32 = 0x4150;

pub const IX: u32 = 0x4958;

pub const FN: u32 = 0x464e;

pub const IF: u32 = 0x4946;

pub const SC: u32 = 0x5343;

pub const OB: u32 = 0x4f42;

pub const BV: u32 = 0x4256;

pub const BF: u32 = 0x4246;

pub const PA: u32 = 0x5041;

pub const AT: u32 = 0x4154;

pub const FH: u32 = 0x4648;

pub const NA: u32 = 0x4e41;

pub const PT: u32 = 0x5054;

// The number at an offset as a count. Inlined as `number_at` is.
#[inline(always)]
pub fn count_at(s: &[u8], at: usize) -> usize
    ensures { (result ≡ number_at s.now at) × (result < 4294967296) }
{
    number_at(s, at) as usize
}

// Whether n bytes are there from an offset on.
pub fn has_room(tree: &[u8], at: usize, n: usize) -> bool
    ensures { result ≡ leb (at + n) (length tree.now) }
{
    n <= tree.len() && at <= tree.len() - n
}

// The bytes that a record with this mark takes. Inlined: in the first walk most callers know the mark.
#[inline(always)]
pub fn size_of(mark: u32) -> usize
    ensures { (result ≡ size_of (mark_of mark)) × (2 ≤ result) × (result ≤ 26) }
{
    match mark {
        JT | TV | AR | UN | BI | AS | LO | ER | IX | IF | SC | AT | NA | PT => 6,
        ID | VA | FN | BV | BF => 10,
        OB | PA => 14,
        IM | AP => 18,
        FH => 26,
        // a bare mark
        _ => 2,
    }
}

// How many of start, end and step a set has.
fn members(set: u32) -> usize
    ensures { (result ≡ members set) × (result < 4294967296) }
{
    (set % 2 + set / 2 % 2 + set / 4) as usize
}

// How many records stand directly below the record with this mark that the bytes begin with.
pub fn children(bytes: &[u8], mark: u32) -> usize
    ensures { result ≡ children (mark_of mark) (numbers_at bytes.now (numbers_of (mark_of mark)) 2) }
{
    match mark {
        AR => count_at(bytes, offsets::AR_COUNT),
        OX | BI => 2,
        UN | ER | BV | BF | NA | PT => 1,
        AS => 2 + count_at(bytes, offsets::AS_MESSAGE),
        LO => 1 + count_at(bytes, offsets::LO_COUNT),
        AP => 1 + count_at(bytes, offsets::AP_VALUES) + count_at(bytes, offsets::AP_NAMED),
        IX => 1 + count_at(bytes, offsets::IX_COUNT),
        FN => 1 + count_at(bytes, offsets::FN_COUNT),
        IF => 2 + count_at(bytes, offsets::IF_ELSE),
        SC => 1 + members(number_at(bytes, offsets::SC_SET)),
        OB => 2 * count_at(bytes, offsets::OB_FIELDS)
            + count_at(bytes, offsets::OB_BINDS)
            + count_at(bytes, offsets::OB_ASSERTIONS),
        PA => usize::from(number_at(bytes, offsets::PA_DEFAULT) != 0),
        AT => 1 + count_at(bytes, offsets::AT_MESSAGE),
        FH => usize::from(number_at(bytes, offsets::FH_KIND) != 0),
        _ => 0,
    }
}

// Whether a whole constant stands at an offset.
fn constant(tree: &[u8], at: usize) -> bool
    ensures { result ≡ constant_at tree.now at }
{
    has_room(tree, at, offsets::TV_SIZE) && mark_at(tree, at) == TV
}

// Whether n whole constants stand one after the other; looks no further than the first record that is none.
pub fn constants(tree: &[u8], at: usize, n: usize) -> bool
    ensures { result ≡ is_some (constants_at tree.now n at) }
{
    let mut p = at;
    for _ in 0..n {
        if !constant(tree, p) {
            return false;
        }
        p += offsets::TV_SIZE;
    }
    true
}
