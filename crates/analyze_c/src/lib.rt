// The whole call for a caller in C: the report's nine numbers, and the buffers as `analyze_root` leaves them.

#![tactic(auto)]

ghost use Rattle.std.specs.Prelude.{◌≡◌};
ghost use Rattle.rules.specs.Call.{call};
ghost use Rattle.rules.specs.Numbers.{bit};
ghost use Rattle.state.specs.Seen.{buffers};
ghost use Rattle.call_root.specs.Answers.{lent};
ghost use Rattle.analyze.specs.Answers.{Told, limits_from};

use analyze::analyze_root;
use state::Limits;

// 1 for an error reported.
fn errored_number(errored: bool) -> u64
    ensures { result ≡ bit errored }
{
    if errored { 1 } else { 0 }
}

// The call for C: the report's nine numbers, and the buffers as `analyze_root` leaves them.
#[unsafe(no_mangle)]
pub extern "C" fn tsilmogar_analyze(
    tree: &[u8],
    out: &mut [u8],
    diagnostics: &mut [u8],
    locals: &mut [u32],
    frames: &mut [u32],
    captures: &mut [u32],
    references: &mut [u32],
    max_locals: u32,
    max_frames: u32,
    max_captures: u32,
    max_references: u32,
    report: &mut [u64; 9],
)
    ensures { Told report.new (buffers out.new diagnostics.new locals.new frames.new captures.new references.new)
        (call (lent tree.now (buffers out.old diagnostics.old locals.old frames.old captures.old references.old)
        (limits_from max_locals max_frames max_captures max_references))) }
{
    let limits = Limits {
        max_locals: max_locals,
        max_frames: max_frames,
        max_captures: max_captures,
        max_references: max_references,
    };
    let r = analyze_root(
        tree,
        out,
        diagnostics,
        locals,
        frames,
        captures,
        references,
        limits,
    );
    *report = [
        r.number as u64,
        r.place as u64,
        r.out_length as u64,
        r.diagnostics_length as u64,
        errored_number(r.errored),
        r.rounds,
        r.depths.object_dependent_depth as u64,
        r.depths.local_dependent_depth as u64,
        r.depths.local_dependent_depth_max as u64,
    ];
}
