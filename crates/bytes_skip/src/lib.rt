// The way past one expression of an accepted tree, and past a field's head.

#![tactic(auto)]

ghost use Rattle.std.specs.Prelude.{◌+◌, ◌≤◌, length};
ghost use Rattle.bytes_skip.specs.Behind.{Skipped, Behind};

use bytes_read::{mark_at, number_at};
use bytes_records::{children, has_room, offsets, size_of};

// The place after one expression of an accepted tree. Each record takes itself off those still to come and adds those directly below it.
pub fn skip(tree: &[u8], at: usize) -> usize
    ensures { Skipped tree.now at result }
{
    let mut p = at;
    let mut left: usize = 1;
    while 0 < left {
        let mark = mark_at(tree, p);
        let size = size_of(mark);
        if !has_room(tree, p, size) {
            return p;
        }
        let room = tree.len() - p;
        let more = children(&tree[p..], mark);
        // no accepted tree has more records than bytes
        if room < left {
            return p;
        }
        if room - left < more {
            return p;
        }
        left = left - 1 + more;
        p += size;
    }
    p
}

// The place after a field's head whose name, if it is computed, was read before.
pub fn after_head(tree: &[u8], at: usize) -> usize
    requires { at + 26 ≤ length tree.now }
    ensures { Behind tree.now at result }
{
    if number_at(tree, at + offsets::FH_KIND) == 0 {
        return at + offsets::FH_SIZE;
    }
    skip(tree, at + offsets::FH_SIZE)
}
