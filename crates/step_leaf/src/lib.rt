// The records with nothing below them, of which most items are: no walker is called for them.

#![tactic(auto)]

ghost use Rattle.std.specs.Prelude.{◌≡◌};
ghost use Rattle.state.specs.Seen.{contents_within, SameWithin, OnlyRead};
ghost use Rattle.state.specs.Walks.{place_of, Walks};
ghost use Rattle.law_runs.specs.Run.{run_items};
ghost use Rattle.law_joins.specs.Ready.{Ready};
ghost use Rattle.step_leaf.specs.Leaves.{is_leaf, LeafThere};

use bytes_records::{ID, IM, TV, VA, offsets};
use state::{AnalysisStack, Limits, Place, Walked, Within};
use step_copy::copy_record;
use step_emit::analyze_import;
use step_name::analyze_name;

// Whether a record with this mark has nothing below it.
pub fn is_leaf(mark: u32) -> bool
    ensures { result ≡ is_leaf mark }
{
    matches!(mark, ID | TV | VA | IM)
}

// An item with nothing below it.
pub fn on_leaf(
    tree: &[u8],
    within: &mut Within<'_>,
    limits: Limits,
    st: AnalysisStack,
    at: usize,
    nest: u32,
    mark: u32,
    here: Place,
) -> Walked
    requires ready { Ready limits (contents_within within.old)
        st tree.now at nest here }
    requires leaf_there { LeafThere tree.now nest mark at }
    ensures walks { Walks result limits (contents_within within.old)
        (contents_within within.new) st (λ limits σ. run_items
        tree.now limits nest 1 at (place_of here) σ) }
    ensures same_buffers { SameWithin within.old within.new }
    ensures unwritten { OnlyRead within.old within.new }
{
    match mark {
        TV => copy_record(tree, within.out, st, at, at + offsets::TV_SIZE, TV),
        IM => analyze_import(tree, within.out, within.diagnostics, st, at),
        _ => analyze_name(
            tree,
            within.out,
            within.diagnostics,
            within.locals,
            within.frames,
            within.captures,
            limits,
            st,
            at,
            mark,
            here,
        ),
    }
}
