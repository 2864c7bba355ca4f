// Numbers and marks of the packed form, read at an offset.

#![tactic(auto)]

ghost use Rattle.std.specs.Prelude.{◌≡◌, ◌<◌, get_or};
ghost use Rattle.rules.specs.Numbers.{number_at, code_at};

// The byte at an offset; past the end there are zeros.
pub fn byte_at(s: &[u8], at: usize) -> u32
    ensures { (result ≡ get_or s.now at 0) × (result < 256) }
{
    if at < s.len() { u32::from(s[at]) } else { 0 }
}

// The two bytes at an offset as a mark. Where both are there, none is asked for its place.
#[tactic(auto, unfolding(rules::specs::Numbers::code_at))]
pub fn mark_at(s: &[u8], at: usize) -> u32
    ensures { (result ≡ code_at s.now at) × (result < 65536) }
{
    if s.len() <= at {
        return 0;
    }
    if 2 <= s.len() - at {
        return 256 * u32::from(s[at]) + u32::from(s[at + 1]);
    }
    256 * byte_at(s, at)
}

// The number at an offset. Where all four bytes are there, none is asked for its place: put into callers, of which most know that they are.
#[tactic(auto, unfolding(rules::specs::Numbers::number_at))]
#[inline(always)]
pub fn number_at(s: &[u8], at: usize) -> u32
    ensures { result ≡ number_at s.now at }
{
    if s.len() <= at {
        return 0;
    }
    if 4 <= s.len() - at {
        return u32::from_le_bytes([s[at], s[at + 1], s[at + 2], s[at + 3]]);
    }
    byte_at(s, at) + 256 * byte_at(s, at + 1) + 65536 * byte_at(s, at + 2)
}
