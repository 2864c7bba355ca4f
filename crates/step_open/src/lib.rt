// Frames opened, with their names defined over the packed tree.

#![tactic(auto)]

ghost use Rattle.std.specs.Prelude.{◌+◌, ◌*◌, ◌<◌, ◌≤◌, length};
ghost use Rattle.step_declare.specs.Answers.{BindsThere, ParamsThere, Fitting};
ghost use Rattle.step_open.specs.Answers.{Opening, ValueOpened, LocalBegun, FunctionBegun, ObjectEntered, ObjectOpened, ObjectBegun};

use bytes_records::offsets;
use state::{AnalysisStack, Limits, Place, Step, Walked};
use step_declare::{define_binds, define_params};
use step_frame::open_frame;
use step_locals::define_this;
use value_depths::AnalysisResult;

// The frame of a spec's value, which depends on nothing yet.
pub fn open_value(frames: &mut [u32], limits: Limits, st: AnalysisStack, at: usize) -> Step
    requires { 16 * limits.max_frames ≤ length frames.old }
    ensures { ValueOpened result frames.old frames.new limits st at }
{
    let clean = AnalysisStack {
        taint: AnalysisResult::no_dependence(),
        ..st
    };
    open_frame(frames, limits, clean, at, false)
}

// The frame of the `LO` at an offset, and its n names.
pub fn begin_local(
    tree: &[u8],
    diagnostics: &mut [u8],
    locals: &mut [u32],
    frames: &mut [u32],
    limits: Limits,
    st: AnalysisStack,
    at: usize,
    n: u32,
    depth: u32,
) -> Walked
    requires { (BindsThere tree.now n (at + 6)) × (at + 6 ≤ length tree.now) × (length tree.now < 4294967296) ×
        (Fitting limits diagnostics.old locals.old frames.old st) }
    ensures { LocalBegun result tree.now diagnostics.old diagnostics.new locals.old locals.new frames.old frames.new
        limits st at n depth }
{
    let inside = open_frame(frames, limits, st, at, true)?;
    define_binds(
        tree,
        diagnostics,
        locals,
        frames,
        limits,
        inside,
        at + offsets::LO_SIZE,
        n,
        depth,
    )
}

// The frame of the `FN` at an offset, and the names of its n parameters.
// Apart from `begin_local`: only the first line is the same, and one function for both would be passed the second.
pub fn begin_function(
    tree: &[u8],
    diagnostics: &mut [u8],
    locals: &mut [u32],
    frames: &mut [u32],
    limits: Limits,
    st: AnalysisStack,
    at: usize,
    n: u32,
    depth: u32,
) -> Walked
    requires { (ParamsThere tree.now n (at + 10)) × (at + 10 ≤ length tree.now) × (length tree.now < 4294967296) ×
        (Fitting limits diagnostics.old locals.old frames.old st) }
    ensures { FunctionBegun result tree.now diagnostics.old diagnostics.new locals.old locals.new frames.old
        frames.new limits st at n depth }
{
    let inside = open_frame(frames, limits, st, at, true)?;
    define_params(
        tree,
        diagnostics,
        locals,
        frames,
        limits,
        inside,
        at + offsets::FN_SIZE,
        n,
        depth,
    )
}

// An object's own marks are not met yet; `$`'s go on, unless it is the outermost.
fn enter_object(st: AnalysisStack, here: Place) -> AnalysisStack
    ensures { ObjectEntered result st here }
{
    AnalysisStack {
        self_used: false,
        super_used: false,
        dollar_used: here.in_object && st.dollar_used,
        ..st
    }
}

// The frame of the object at an offset, and its `this`.
fn open_object(
    locals: &mut [u32],
    frames: &mut [u32],
    limits: Limits,
    st: AnalysisStack,
    at: usize,
    here: Place,
) -> Step
    requires { (at < 4294967296) × (Opening limits locals.old frames.old st) }
    ensures { ObjectOpened result locals.old locals.new frames.old frames.new limits st at here }
{
    let entered = enter_object(st, here);
    let inside = open_frame(frames, limits, entered, at, true)?;
    define_this(locals, frames, limits, inside, at, here.depth)
}

// The frame of the object at an offset, its `this`, and its n names, which stand at `binds`.
pub fn begin_object(
    tree: &[u8],
    diagnostics: &mut [u8],
    locals: &mut [u32],
    frames: &mut [u32],
    limits: Limits,
    st: AnalysisStack,
    at: usize,
    binds: usize,
    n: u32,
    here: Place,
) -> Walked
    requires { (BindsThere tree.now n binds) × (at ≤ length tree.now) × (length tree.now < 4294967296) × (Fitting
        limits diagnostics.old locals.old frames.old st) }
    ensures { ObjectBegun result tree.now diagnostics.old diagnostics.new locals.old locals.new frames.old frames.new
        limits st at binds n here }
{
    let inside = open_object(locals, frames, limits, st, at, here)?;
    define_binds(
        tree,
        diagnostics,
        locals,
        frames,
        limits,
        inside,
        binds,
        n,
        here.depth,
    )
}
