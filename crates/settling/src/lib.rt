// Both settling loops of a frame's locals, over the references kept for its specs, under the Rust's names.

#![tactic(auto)]

ghost use Rattle.std.specs.Prelude.{◌+◌, ◌*◌, ◌<◌, ◌≤◌, length};
ghost use Rattle.rules.specs.Settling.{Loop, propagate_analysis, propagate_use};
ghost use Rattle.settling.specs.Meaning.{references_between, Inside, Propagates, OneRound, Settles};
ghost use Rattle.settling.specs.Changed.{Ors, analysis_ors, use_ors};

use table_locals::USED_AT_DEPTH;
use value_local::LocalId;

// One of a frame's two loops, by what a reference does in a round.
pub trait Propagate {
    ghost rule: { Loop };

    // Answers whether it changed anything.
    fn propagate(locals: &mut [u32], user: LocalId, used: LocalId) -> bool
        requires { (16 * user.0 + 16 ≤ length locals.old) × (16 * used.0 + 16 ≤ length locals.old) }
        ensures { Propagates rule locals.old locals.new user.0 used.0 result };

    ghost ors: { Ors rule };
}

// The first, before the frame's body, settles what its locals depend on.
pub struct Analysis;

// The second, after it, settles where they are used.
pub struct Use;

impl Propagate for Analysis {
    ghost rule = { propagate_analysis };

    ghost ors = { analysis_ors };

    // The Rust's `propagate_analysis`: the user depends on what the used one depends on, and on the used one.
    fn propagate(locals: &mut [u32], user: LocalId, used: LocalId) -> bool {
        let user_def = table_locals::local_at(locals, user);
        let used_def = table_locals::local_at(locals, used);
        let tainted = user_def.analysis.taint_by(used_def.analysis);
        let analysis = tainted.depend_on_local(used_def.defined_at_depth);
        table_locals::put_local(locals, user, user_def.with_analysis(analysis));
        !analysis.same(user_def.analysis)
    }
}

impl Propagate for Use {
    ghost rule = { propagate_use };

    ghost ors = { use_ors };

    // The used one is used where its user is used.
    fn propagate(locals: &mut [u32], user: LocalId, used: LocalId) -> bool {
        let used_at_depth = 16 * (used.0 as usize) + USED_AT_DEPTH;
        let min_used_at = locals[16 * (user.0 as usize) + USED_AT_DEPTH];
        if min_used_at < locals[used_at_depth] {
            locals[used_at_depth] = min_used_at;
            return true;
        }
        false
    }
}

// One round. Answers whether it changed anything.
pub fn one_round<L: Propagate>(
    locals: &mut [u32],
    references: &[u32],
    from: usize,
    to: usize,
) -> bool
    requires { Inside locals.old references.now from to }
    ensures { OneRound L.rule (references_between from to references.now) locals.old locals.new result }
{
    let mut changed = false;
    for k in from..to {
        let r = table_references::reference_at(references, k);
        changed |= L::propagate(locals, r.user, r.used);
    }
    changed
}

// Rounds until one changes nothing, at most kept + 1. Answers how many.
pub fn settle<L: Propagate>(
    locals: &mut [u32],
    references: &[u32],
    from: usize,
    to: usize,
    kept: u32,
) -> u32
    requires { (kept < 4294967295) × Inside locals.old references.now from to }
    ensures { Settles L.rule (references_between from to references.now) locals.old locals.new kept result }
{
    let most = kept + 1;
    for rounds in 1..=most {
        if !one_round::<L>(locals, references, from, to) {
            return rounds;
        }
    }
    most
}
