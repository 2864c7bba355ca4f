// The names of binds and of parameters, read from the packed tree and defined one after another in the frame on top.

#![tactic(auto)]

ghost use Rattle.std.specs.Prelude.{◌+◌, ◌<◌, ◌≤◌, ℕ, ◌*◌, length};
ghost use Rattle.rules.specs.Numbers.{number_at};
ghost use Rattle.step_declare.specs.Defined.{DefinedLocal};
ghost use Rattle.step_declare.specs.Answers.{BindsThere, ParamsThere, Fitting, AfterParam, BindsDefined, ParamsDefined};
ghost use Rattle.table_rows.specs.Entries.{number};

use bytes_read::number_at;
use bytes_records::offsets;
use bytes_skip::skip;
use state::{AnalysisStack, Limits, Step, Walked};
use step_locals::{define_new, is_taken};
use step_write::{Code, Level, report};

// Error 2 where the frame on top has the name already; else 11, then 6, or the name is defined.
fn define_local(
    diagnostics: &mut [u8],
    locals: &mut [u32],
    frames: &mut [u32],
    limits: Limits,
    st: AnalysisStack,
    place: usize,
    name: u32,
    span: u32,
    depth: u32,
) -> Step
    requires locals_in_bounds { (16 * st.locals ≤ length locals.old) × (16 * st.frames ≤ length frames.old) × ((f : ℕ)
        → f < st.frames → number frames.old f 1 ≤ st.locals) }
    requires max_locals_in_bounds { (16 * limits.max_locals ≤ length locals.old) × (0 < st.frames) × (place <
        4294967296) }
    ensures { DefinedLocal result diagnostics.old diagnostics.new locals.old locals.new frames.old frames.new limits
        st place name span depth }
{
    if is_taken(locals, frames, st, name) {
        return report(
            diagnostics,
            st,
            place,
            Level::Error,
            Code::DefinedTwice as u32,
            name,
            span,
        );
    }
    define_new(locals, frames, limits, st, place, name, span, depth)
}

// The name of the bind or the parameter at an offset, whose span follows it.
fn define_at(
    tree: &[u8],
    diagnostics: &mut [u8],
    locals: &mut [u32],
    frames: &mut [u32],
    limits: Limits,
    st: AnalysisStack,
    at: usize,
    depth: u32,
) -> Step
    requires { (at + 10 ≤ length tree.now) × (length tree.now < 4294967296) × (0 < st.frames) × (Fitting limits
        diagnostics.old locals.old frames.old st) }
    ensures { DefinedLocal result diagnostics.old diagnostics.new locals.old locals.new frames.old frames.new limits
        st at (number_at tree.now (at + 2)) (number_at tree.now (at + 6)) depth }
{
    let name = number_at(tree, at + offsets::BIND_NAME);
    let span = number_at(tree, at + offsets::BIND_SPAN);
    define_local(
        diagnostics,
        locals,
        frames,
        limits,
        st,
        at,
        name,
        span,
        depth,
    )
}

// The names of n binds.
pub fn define_binds(
    tree: &[u8],
    diagnostics: &mut [u8],
    locals: &mut [u32],
    frames: &mut [u32],
    limits: Limits,
    st: AnalysisStack,
    at: usize,
    n: u32,
    depth: u32,
) -> Walked
    requires { (BindsThere tree.now n at) × (length tree.now < 4294967296) × (0 < st.frames) × (Fitting limits
        diagnostics.old locals.old frames.old st) }
    ensures { BindsDefined result tree.now diagnostics.old diagnostics.new locals.old locals.new frames.old frames.new
        limits st at n depth }
{
    let mut p = at;
    let mut reached = st;
    for _ in 0..n {
        reached = define_at(tree, diagnostics, locals, frames, limits, reached, p, depth)?;
        p = skip(tree, p + offsets::BIND_SIZE);
    }
    Ok((reached, p))
}

// The place after the parameter at an offset, with its default.
fn after_param(tree: &[u8], at: usize) -> usize
    requires { at + 14 ≤ length tree.now }
    ensures { AfterParam tree.now at result }
{
    if number_at(tree, at + offsets::PA_DEFAULT) == 0 {
        return at + offsets::PA_SIZE;
    }
    skip(tree, at + offsets::PA_SIZE)
}

// The names of n parameters.
// Apart from `define_binds`: one function for both would need the step past a name passed in, with its contract.
pub fn define_params(
    tree: &[u8],
    diagnostics: &mut [u8],
    locals: &mut [u32],
    frames: &mut [u32],
    limits: Limits,
    st: AnalysisStack,
    at: usize,
    n: u32,
    depth: u32,
) -> Walked
    requires { (ParamsThere tree.now n at) × (length tree.now < 4294967296) × (0 < st.frames) × (Fitting limits
        diagnostics.old locals.old frames.old st) }
    ensures { ParamsDefined result tree.now diagnostics.old diagnostics.new locals.old locals.new frames.old
        frames.new limits st at n depth }
{
    let mut p = at;
    let mut reached = st;
    for _ in 0..n {
        reached = define_at(tree, diagnostics, locals, frames, limits, reached, p, depth)?;
        p = after_param(tree, p);
    }
    Ok((reached, p))
}
