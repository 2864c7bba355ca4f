// The first walk alone for a caller in another language: its speed is measured so.

#![tactic(auto)]

ghost use Rattle.std.specs.Prelude.{◌≡◌, length};
ghost use Rattle.rules.specs.FirstWalk.{tree_at};
ghost use Rattle.tree.specs.Seen.{ended};
ghost use Rattle.tree_c.specs.Answer.{number_of};

// The refusal's number, 0 where the tree is accepted.
#[unsafe(no_mangle)]
pub extern "C" fn tsilmogar_first_walk(tree: &[u8]) -> u32
    ensures { result ≡ number_of (ended (length tree.now) (tree_at tree.now)) }
{
    match tree::first_walk(tree) {
        Ok(_) => 0,
        Err(e) => e.reason.number(),
    }
}
