// The walkers of the analysis: expressions, functions and objects, which call one another over the packed tree. `nest` levels are left
// for what a walker is given; all of them have the six buffers that the caller passed in, the limits and the state, which goes by value.

#![tactic(auto)]

ghost use Rattle.std.specs.Prelude.{◌≡◌, ℕ, ◌+◌, ◌-◌, ◌<◌, ◌≤◌, length};
ghost use Rattle.rules.specs.Numbers as rules;
ghost use Rattle.rules.specs.FirstWalk.{any_expression, expr_at};
ghost use Rattle.rules.specs.Walk as walk;
ghost use Rattle.state.specs.Seen.{contents, SameBuffers};
ghost use Rattle.state.specs.Walks.{place_of, naming_of, Walks, WalksSpecs};
ghost use Rattle.law_runs.specs.Run.{Accepted, items_at, binds_at, params_at, heads_at, values_at};
ghost use Rattle.law_runs.specs.Run.{run_expr, run_items, run_assertions, run_values, run_heads, run_binds, run_params};
ghost use Rattle.law_runs.specs.Steps.{first_defaults};
ghost use Rattle.step_leaf.specs.Leaves.{LeafThere};
ghost use Rattle.law_joins.specs.Ready.{Ready, There, PlainThere, HeldThere, MembersThere, FieldsThere, fields_steps, members_steps};

use bytes_read::{mark_at, number_at};
use bytes_records::{AR, AT, FN, LO, NA, OB, PT, children, constants, offsets, size_of};
use bytes_skip::after_head;
use settling::Analysis;
use state::{AnalysisStack, Lent, Limits, Naming, Place, Specs, Walked, Within};
use step_close::{finish_function, finish_local, finish_object};
use step_copy::{copy_record, emit_constants};
use step_emit::emit_head;
use step_frame::open_frame;
use step_judge::settle_frame;
use step_leaf::{is_leaf, on_leaf};
use step_open::{begin_function, begin_local, begin_object, open_value};
use step_place::{bind_naming, deeper, head_naming, in_object};
use step_record::{FunctionEnd, ObjectEnd};
use step_shape::{close_array, close_assertions, close_value};
use step_spec::{Spec, SpecEnd, close_spec, record_spec_init};
use step_static::is_static;
use value_depths::AnalysisResult;

// Whether the first of n parameters has a default.
fn first_defaults(tree: &[u8], at: usize, n: u32) -> bool
    requires { (length tree.now ≤ 16777216) × (0 < n → at + 14 ≤ length tree.now) }
    ensures { result ≡ first_defaults tree.now n at }
{
    n != 0 && number_at(tree, at + offsets::PA_DEFAULT) != 0
}

// The expression at a place, with `nest` levels left for it and what stands below it.
#[cycle(analysis)]
pub fn analyze(
    tree: &[u8],
    lent: &mut Lent<'_>,
    limits: Limits,
    st: AnalysisStack,
    at: usize,
    nest: u32,
    naming: Naming,
    here: Place,
) -> Walked
    requires ready { Ready limits (contents lent.old)
        st tree.now at nest here }
    requires accepted { Accepted (expr_at tree.now nest any_expression at) }
    ensures walks { Walks result limits (contents lent.old)
        (contents lent.new) st (λ limits σ. run_expr
        tree.now limits nest at (naming_of naming) (place_of here) σ) }
    ensures same_buffers { SameBuffers lent.old lent.new }
{
    let mark = mark_at(tree, at);
    if is_leaf(mark) {
        return on_items(tree, lent, limits, st, at, nest, 1, here);
    }
    match mark {
        AR => on_array(tree, lent, limits, st, at, nest, here),
        LO => on_local(tree, lent, limits, st, at, nest, here),
        FN => on_function(tree, lent, limits, st, at, nest, naming, here),
        OB => on_object(tree, lent, limits, st, at, nest, here),
        _ => on_plain(tree, lent, limits, st, at, nest, mark, here),
    }
}

// A record with this mark that opens no frame: what stands below it, and then itself.
#[cycle(analysis)]
fn on_plain(
    tree: &[u8],
    lent: &mut Lent<'_>,
    limits: Limits,
    st: AnalysisStack,
    at: usize,
    nest: u32,
    mark: u32,
    here: Place,
) -> Walked
    requires ready { Ready limits (contents lent.old)
        st tree.now at nest here }
    requires plain_there { PlainThere tree.now nest mark at }
    ensures walks { (ν : walk.Naming) → Walks result limits (contents lent.old) (contents lent.new) st (λ limits σ. run_expr tree.now limits nest at ν (place_of here) σ) }
    ensures same_buffers { SameBuffers lent.old lent.new }
{
    let n = children(&tree[at..], mark);
    let below = at + size_of(mark);
    let (after, next) = on_items(tree, lent, limits, st, below, nest - 1, n, here)?;
    copy_record(tree, lent.out, after, at, next, mark)
}

// `AR`: constants in one record, or items in a using frame.
#[cycle(analysis)]
fn on_array(
    tree: &[u8],
    lent: &mut Lent<'_>,
    limits: Limits,
    st: AnalysisStack,
    at: usize,
    nest: u32,
    here: Place,
) -> Walked
    requires ready { Ready limits (contents lent.old)
        st tree.now at nest here }
    requires there { There tree.now nest rules.AR at }
    ensures walks { (ν : walk.Naming) → Walks result limits (contents lent.old) (contents lent.new) st (λ limits σ. run_expr tree.now limits nest at ν (place_of here) σ) }
    ensures same_buffers { SameBuffers lent.old lent.new }
{
    let n = number_at(tree, at + offsets::AR_COUNT);
    if constants(tree, at + offsets::AR_SIZE, n as usize) {
        return emit_constants(tree, lent.out, st, at, n as usize);
    }
    let inside = open_frame(lent.frames, limits, st, at, false)?;
    let (after, next) = on_items(
        tree,
        lent,
        limits,
        inside,
        at + offsets::AR_SIZE,
        nest - 1,
        n as usize,
        here,
    )?;
    let frames = &mut *lent.frames;
    close_array(lent.out, frames, lent.captures, after, at, n, next)
}

// `LO`: binds and a body; with no binds it is its body.
#[cycle(analysis)]
fn on_local(
    tree: &[u8],
    lent: &mut Lent<'_>,
    limits: Limits,
    st: AnalysisStack,
    at: usize,
    nest: u32,
    here: Place,
) -> Walked
    requires ready { Ready limits (contents lent.old)
        st tree.now at nest here }
    requires there { There tree.now nest rules.LO at }
    ensures walks { (ν : walk.Naming) → Walks result limits (contents lent.old) (contents lent.new) st (λ limits σ. run_expr tree.now limits nest at ν (place_of here) σ) }
    ensures same_buffers { SameBuffers lent.old lent.new }
{
    let n = number_at(tree, at + offsets::LO_COUNT);
    if n == 0 {
        return analyze(
            tree,
            lent,
            limits,
            st,
            at + offsets::LO_SIZE,
            nest - 1,
            Naming::Unnamed,
            here,
        );
    }
    let before = st.references;
    let (inside, _) = begin_local(
        tree,
        lent.diagnostics,
        lent.locals,
        lent.frames,
        limits,
        st,
        at,
        n,
        here.depth,
    )?;
    let (known, body, kept) = on_binds(
        tree,
        lent,
        limits,
        inside,
        at + offsets::LO_SIZE,
        nest - 1,
        n,
        0,
        here,
    )?;
    let references = &mut *lent.references;
    let settled = settle_frame::<Analysis>(lent.locals, references, known, kept, before);
    let (after, next) = analyze(
        tree,
        lent,
        limits,
        settled,
        body,
        nest - 1,
        Naming::Unnamed,
        deeper(here),
    )?;
    let frames = &mut *lent.frames;
    let references = &mut *lent.references;
    let mut within = Within {
        out: lent.out,
        diagnostics: lent.diagnostics,
        locals: lent.locals,
        frames,
        captures: lent.captures,
        references,
    };
    finish_local(&mut within, limits, after, at, kept, before, next)
}

// `FN`: parameters and a body.
#[cycle(analysis)]
fn on_function(
    tree: &[u8],
    lent: &mut Lent<'_>,
    limits: Limits,
    st: AnalysisStack,
    at: usize,
    nest: u32,
    naming: Naming,
    here: Place,
) -> Walked
    requires ready { Ready limits (contents lent.old)
        st tree.now at nest here }
    requires there { There tree.now nest rules.FN at }
    ensures walks { Walks result limits (contents lent.old)
        (contents lent.new) st (λ limits σ. run_expr
        tree.now limits nest at (naming_of naming) (place_of here) σ) }
    ensures same_buffers { SameBuffers lent.old lent.new }
{
    let n = number_at(tree, at + offsets::FN_COUNT);
    let before = st.references;
    let (inside, _) = begin_function(
        tree,
        lent.diagnostics,
        lent.locals,
        lent.frames,
        limits,
        st,
        at,
        n,
        here.depth,
    )?;
    let (known, body, kept) = on_params(
        tree,
        lent,
        limits,
        inside,
        at + offsets::FN_SIZE,
        nest - 1,
        n,
        here,
    )?;
    let references = &mut *lent.references;
    let settled = settle_frame::<Analysis>(lent.locals, references, known, kept, before);
    let (after, next) = analyze(
        tree,
        lent,
        limits,
        settled,
        body,
        nest - 1,
        Naming::Unnamed,
        deeper(here),
    )?;
    let defaults = first_defaults(tree, at + offsets::FN_SIZE, n);
    let function = FunctionEnd {
        span: number_at(tree, at + offsets::FN_SPAN),
        start: st.out,
        body_start: known.out,
        kept,
        defaults,
    };
    let frames = &mut *lent.frames;
    let references = &mut *lent.references;
    let mut within = Within {
        out: lent.out,
        diagnostics: lent.diagnostics,
        locals: lent.locals,
        frames,
        captures: lent.captures,
        references,
    };
    finish_function(
        &mut within,
        limits,
        after,
        at,
        before,
        function,
        naming,
        next,
    )
}

// `OB`: heads in the scope outside, then binds, assertions and values inside.
#[cycle(analysis)]
fn on_object(
    tree: &[u8],
    lent: &mut Lent<'_>,
    limits: Limits,
    st: AnalysisStack,
    at: usize,
    nest: u32,
    here: Place,
) -> Walked
    requires ready { Ready limits (contents lent.old)
        st tree.now at nest here }
    requires there { There tree.now nest rules.OB at }
    ensures walks { (ν : walk.Naming) → Walks result limits (contents lent.old) (contents lent.new) st (λ limits σ. run_expr tree.now limits nest at ν (place_of here) σ) }
    ensures same_buffers { SameBuffers lent.old lent.new }
{
    let fields = number_at(tree, at + offsets::OB_FIELDS);
    let (outside, binds) = on_heads(
        tree,
        lent,
        limits,
        st,
        at + offsets::OB_SIZE,
        nest - 1,
        fields,
        here,
    )?;
    on_members(tree, lent, limits, outside, binds, nest, at, here)
}

// What stands after the heads of the object at `object`: its binds, which stand here, assertions and values. The state is ready for a place
// before the binds by the object's own record, whose 14 bytes pay for the rounds of its frame.
#[cycle(analysis)]
fn on_members(
    tree: &[u8],
    lent: &mut Lent<'_>,
    limits: Limits,
    st: AnalysisStack,
    at: usize,
    nest: u32,
    object: usize,
    here: Place,
) -> Walked
    requires ready { Ready limits (contents lent.old)
        st tree.now (at - 14) nest here }
    requires members_there { MembersThere tree.now nest at object }
    ensures walks { Walks result limits (contents lent.old)
        (contents lent.new) st (λ limits σ.
        members_steps tree.now limits nest at object (place_of here) σ) }
    ensures same_buffers { SameBuffers lent.old lent.new }
{
    let n = number_at(tree, object + offsets::OB_BINDS);
    let before = st.references;
    let inside = in_object(here, st.locals);
    let (opened, _) = begin_object(
        tree,
        lent.diagnostics,
        lent.locals,
        lent.frames,
        limits,
        st,
        object,
        at,
        n,
        here,
    )?;
    let (known, assertions, kept) = on_binds(
        tree,
        lent,
        limits,
        opened,
        at,
        nest - 1,
        n,
        1,
        inside,
    )?;
    let references = &mut *lent.references;
    let settled = settle_frame::<Analysis>(lent.locals, references, known, kept, before);
    let (after, next) = on_fields(
        tree,
        lent,
        limits,
        settled,
        assertions,
        nest - 1,
        object,
        deeper(inside),
    )?;
    let fields = number_at(tree, object + offsets::OB_FIELDS);
    let end = ObjectEnd {
        outermost: !here.in_object,
        self_used: st.self_used,
        super_used: st.super_used,
        kept,
        assertions: number_at(tree, object + offsets::OB_ASSERTIONS),
        values: fields,
        is_static: is_static(tree, object + offsets::OB_SIZE, fields),
    };
    let frames = &mut *lent.frames;
    let references = &mut *lent.references;
    let mut within = Within {
        out: lent.out,
        diagnostics: lent.diagnostics,
        locals: lent.locals,
        frames,
        captures: lent.captures,
        references,
    };
    finish_object(&mut within, limits, after, object, before, end, next)
}

// The assertions and the values of the object at `object`.
#[cycle(analysis)]
fn on_fields(
    tree: &[u8],
    lent: &mut Lent<'_>,
    limits: Limits,
    st: AnalysisStack,
    at: usize,
    nest: u32,
    object: usize,
    here: Place,
) -> Walked
    requires ready { Ready limits (contents lent.old)
        st tree.now at nest here }
    requires fields_there { FieldsThere tree.now nest object at }
    ensures walks { Walks result limits (contents lent.old)
        (contents lent.new) st (λ limits σ.
        fields_steps tree.now limits nest object at (place_of here) σ) }
    ensures same_buffers { SameBuffers lent.old lent.new }
{
    let (after, values) = on_assertions(
        tree,
        lent,
        limits,
        st,
        at,
        nest,
        number_at(tree, object + offsets::OB_ASSERTIONS),
        here,
    )?;
    on_values(
        tree,
        lent,
        limits,
        after,
        values,
        nest,
        number_at(tree, object + offsets::OB_FIELDS),
        object + offsets::OB_SIZE,
        here,
    )
}

// An expression, or an `NA`, `PT` or `AT` with the expressions that it holds.
#[cycle(analysis)]
fn on_item(
    tree: &[u8],
    lent: &mut Lent<'_>,
    limits: Limits,
    st: AnalysisStack,
    at: usize,
    nest: u32,
    here: Place,
) -> Walked
    requires ready { Ready limits (contents lent.old)
        st tree.now at nest here }
    requires accepted { Accepted (items_at tree.now nest 1 at) }
    ensures walks { Walks result limits (contents lent.old)
        (contents lent.new) st (λ limits σ. run_items
        tree.now limits nest 1 at (place_of here) σ) }
    ensures same_buffers { SameBuffers lent.old lent.new }
{
    let mark = mark_at(tree, at);
    match mark {
        NA | PT | AT => on_held(tree, lent, limits, st, at, nest, mark, here),
        _ => analyze(tree, lent, limits, st, at, nest, Naming::Unnamed, here),
    }
}

// `NA`, `PT` or `AT`: one expression, or two for an assertion with a message.
#[cycle(analysis)]
fn on_held(
    tree: &[u8],
    lent: &mut Lent<'_>,
    limits: Limits,
    st: AnalysisStack,
    at: usize,
    nest: u32,
    mark: u32,
    here: Place,
) -> Walked
    requires ready { Ready limits (contents lent.old)
        st tree.now at nest here }
    requires held_there { HeldThere tree.now nest mark at }
    ensures walks { Walks result limits (contents lent.old)
        (contents lent.new) st (λ limits σ. run_items
        tree.now limits nest 1 at (place_of here) σ) }
    ensures same_buffers { SameBuffers lent.old lent.new }
{
    let n = children(&tree[at..], mark);
    let (after, next) = analyze(
        tree,
        lent,
        limits,
        st,
        at + offsets::HELD_SIZE,
        nest,
        Naming::Unnamed,
        here,
    )?;
    if n == 1 {
        return copy_record(tree, lent.out, after, at, next, mark);
    }
    let (after, next) = analyze(tree, lent, limits, after, next, nest, Naming::Unnamed, here)?;
    copy_record(tree, lent.out, after, at, next, mark)
}

// An item with nothing below it, of which `on_leaf` writes neither frames nor references.
fn on_leaf_item(
    tree: &[u8],
    lent: &mut Lent<'_>,
    limits: Limits,
    st: AnalysisStack,
    at: usize,
    nest: u32,
    mark: u32,
    here: Place,
) -> Walked
    requires ready { Ready limits (contents lent.old)
        st tree.now at nest here }
    requires leaf_there { LeafThere tree.now nest mark at }
    ensures walks { Walks result limits (contents lent.old)
        (contents lent.new) st (λ limits σ. run_items
        tree.now limits nest 1 at (place_of here) σ) }
    ensures same_buffers { SameBuffers lent.old lent.new }
{
    let frames = &mut *lent.frames;
    let references = &mut *lent.references;
    let mut within = Within {
        out: lent.out,
        diagnostics: lent.diagnostics,
        locals: lent.locals,
        frames,
        captures: lent.captures,
        references,
    };
    on_leaf(tree, &mut within, limits, st, at, nest, mark, here)
}

// n of them.
#[cycle(analysis)]
fn on_items(
    tree: &[u8],
    lent: &mut Lent<'_>,
    limits: Limits,
    st: AnalysisStack,
    at: usize,
    nest: u32,
    n: usize,
    here: Place,
) -> Walked
    requires ready { Ready limits (contents lent.old)
        st tree.now at nest here }
    requires accepted { Accepted (items_at tree.now nest n at) }
    ensures walks { Walks result limits (contents lent.old)
        (contents lent.new) st (λ limits σ. run_items
        tree.now limits nest n at (place_of here) σ) }
    ensures same_buffers { SameBuffers lent.old lent.new }
{
    let mut state = st;
    let mut p = at;
    for _ in 0..n {
        let mark = mark_at(tree, p);
        let item = if is_leaf(mark) {
            on_leaf_item(tree, lent, limits, state, p, nest, mark, here)
        } else {
            on_item(tree, lent, limits, state, p, nest, here)
        };
        (state, p) = item?;
    }
    Ok((state, p))
}

// An object's assertions, in one using frame if there are any.
#[cycle(analysis)]
fn on_assertions(
    tree: &[u8],
    lent: &mut Lent<'_>,
    limits: Limits,
    st: AnalysisStack,
    at: usize,
    nest: u32,
    n: u32,
    here: Place,
) -> Walked
    requires ready { Ready limits (contents lent.old)
        st tree.now at nest here }
    requires accepted { Accepted (items_at tree.now nest n at) }
    ensures walks { Walks result limits (contents lent.old)
        (contents lent.new) st (λ limits σ.
        run_assertions tree.now limits nest n at (place_of here) σ) }
    ensures same_buffers { SameBuffers lent.old lent.new }
{
    if n == 0 {
        return Ok((st, at));
    }
    let inside = open_frame(lent.frames, limits, st, at, false)?;
    let (after, next) = on_items(tree, lent, limits, inside, at, nest, n as usize, here)?;
    let frames = &mut *lent.frames;
    close_assertions(lent.out, frames, lent.captures, after, at, next)
}

// A field's head, with its name if that is computed.
#[cycle(analysis)]
fn on_head(
    tree: &[u8],
    lent: &mut Lent<'_>,
    limits: Limits,
    st: AnalysisStack,
    at: usize,
    nest: u32,
    here: Place,
) -> Walked
    requires ready { Ready limits (contents lent.old)
        st tree.now at nest here }
    requires accepted { Accepted (heads_at tree.now nest 1 at) }
    ensures walks { Walks result limits (contents lent.old)
        (contents lent.new) st (λ limits σ. run_heads
        tree.now limits nest 1 at (place_of here) σ) }
    ensures same_buffers { SameBuffers lent.old lent.new }
{
    if number_at(tree, at + offsets::FH_KIND) == 0 {
        return emit_head(tree, lent.out, st, at, at + offsets::FH_SIZE);
    }
    let (after, next) = analyze(
        tree,
        lent,
        limits,
        st,
        at + offsets::FH_SIZE,
        nest,
        Naming::Unnamed,
        here,
    )?;
    emit_head(tree, lent.out, after, at, next)
}

// n heads.
#[cycle(analysis)]
fn on_heads(
    tree: &[u8],
    lent: &mut Lent<'_>,
    limits: Limits,
    st: AnalysisStack,
    at: usize,
    nest: u32,
    n: u32,
    here: Place,
) -> Walked
    requires ready { Ready limits (contents lent.old)
        st tree.now at nest here }
    requires accepted { Accepted (heads_at tree.now nest n at) }
    ensures walks { Walks result limits (contents lent.old)
        (contents lent.new) st (λ limits σ. run_heads
        tree.now limits nest n at (place_of here) σ) }
    ensures same_buffers { SameBuffers lent.old lent.new }
{
    let mut state = st;
    let mut p = at;
    for _ in 0..n {
        (state, p) = on_head(tree, lent, limits, state, p, nest, here)?;
    }
    Ok((state, p))
}

// The value of the field whose head stands at `head`, in a using frame.
#[cycle(analysis)]
fn on_value(
    tree: &[u8],
    lent: &mut Lent<'_>,
    limits: Limits,
    st: AnalysisStack,
    at: usize,
    nest: u32,
    head: usize,
    here: Place,
) -> Walked
    requires ready { Ready limits (contents lent.old)
        st tree.now at nest here }
    requires accepted { Accepted (values_at tree.now nest 1 head at) }
    ensures walks { Walks result limits (contents lent.old)
        (contents lent.new) st (λ limits σ. run_values
        tree.now limits nest 1 head at (place_of here) σ) }
    ensures same_buffers { SameBuffers lent.old lent.new }
{
    let inside = open_frame(lent.frames, limits, st, at, false)?;
    let (after, next) = analyze(
        tree,
        lent,
        limits,
        inside,
        at,
        nest,
        head_naming(tree, head),
        here,
    )?;
    let frames = &mut *lent.frames;
    close_value(lent.out, frames, lent.captures, after, at, next)
}

// The values of n fields, whose heads stand from `heads` on.
#[cycle(analysis)]
fn on_values(
    tree: &[u8],
    lent: &mut Lent<'_>,
    limits: Limits,
    st: AnalysisStack,
    at: usize,
    nest: u32,
    n: u32,
    heads: usize,
    here: Place,
) -> Walked
    requires ready { Ready limits (contents lent.old)
        st tree.now at nest here }
    requires accepted { Accepted (values_at tree.now nest n heads at) }
    ensures walks { Walks result limits (contents lent.old)
        (contents lent.new) st (λ limits σ. run_values
        tree.now limits nest n heads at (place_of here) σ) }
    ensures same_buffers { SameBuffers lent.old lent.new }
{
    let mut state = st;
    let mut p = at;
    let mut head = heads;
    for _ in 0..n {
        (state, p) = on_value(tree, lent, limits, state, p, nest, head, here)?;
        head = after_head(tree, head);
    }
    Ok((state, p))
}

// A bind, of which `kept` of its frame were kept before: its value in a using frame, then its record if it is kept.
#[cycle(analysis)]
fn on_bind(
    tree: &[u8],
    lent: &mut Lent<'_>,
    limits: Limits,
    st: AnalysisStack,
    at: usize,
    nest: u32,
    base: u32,
    kept: u32,
    here: Place,
) -> Specs
    requires ready { Ready limits (contents lent.old)
        st tree.now at nest here }
    requires accepted { Accepted (binds_at tree.now nest 1 at) × (kept ≤ 16777216) × (base ≤ 1) }
    ensures walks { WalksSpecs result limits (contents lent.old) (contents lent.new) st (λ
        limits σ. run_binds tree.now limits nest 1 at base kept (place_of here) σ) }
    ensures same_buffers { SameBuffers lent.old lent.new }
{
    let inside = open_value(lent.frames, limits, st, at)?;
    let (after, next) = analyze(
        tree,
        lent,
        limits,
        inside,
        at + offsets::BIND_SIZE,
        nest,
        bind_naming(tree, at),
        here,
    )?;
    let frames = &mut *lent.frames;
    close_spec(
        lent.out,
        lent.locals,
        lent.references,
        frames,
        lent.captures,
        limits,
        after,
        at,
        SpecEnd {
            base,
            kept,
            start: st.out,
            outer: st.taint,
            spec: Spec::Bind,
        },
        next,
    )
}

// n binds of a frame, whose slots before `base` are not for binds.
#[cycle(analysis)]
fn on_binds(
    tree: &[u8],
    lent: &mut Lent<'_>,
    limits: Limits,
    st: AnalysisStack,
    at: usize,
    nest: u32,
    n: u32,
    base: u32,
    here: Place,
) -> Specs
    requires ready { Ready limits (contents lent.old)
        st tree.now at nest here }
    requires accepted { Accepted (binds_at tree.now nest n at) × (base ≤ 1) }
    ensures walks { WalksSpecs result limits (contents lent.old) (contents lent.new) st (λ
        limits σ. run_binds tree.now limits nest n at base 0 (place_of here) σ) }
    ensures same_buffers { SameBuffers lent.old lent.new }
{
    let mut state = st;
    let mut p = at;
    let mut kept: u32 = 0; // none before the first bind
    for _ in 0..n {
        (state, p, kept) = on_bind(tree, lent, limits, state, p, nest, base, kept, here)?;
    }
    Ok((state, p, kept))
}

// A parameter, of which `kept` of its frame were kept before.
#[cycle(analysis)]
fn on_param(
    tree: &[u8],
    lent: &mut Lent<'_>,
    limits: Limits,
    st: AnalysisStack,
    at: usize,
    nest: u32,
    kept: u32,
    here: Place,
) -> Specs
    requires ready { Ready limits (contents lent.old)
        st tree.now at nest here }
    requires accepted { Accepted (params_at tree.now nest 1 at) × (kept ≤ 16777216) }
    ensures walks { WalksSpecs result limits (contents lent.old) (contents lent.new) st (λ
        limits σ. run_params tree.now limits nest 1 at kept (place_of here) σ) }
    ensures same_buffers { SameBuffers lent.old lent.new }
{
    let name = number_at(tree, at + offsets::PA_NAME);
    if number_at(tree, at + offsets::PA_DEFAULT) == 0 {
        let fresh = AnalysisStack {
            taint: AnalysisResult::no_dependence(),
            ..st
        };
        let frames = &mut *lent.frames;
        return record_spec_init(
            lent.out,
            lent.locals,
            lent.references,
            frames,
            limits,
            fresh,
            at,
            SpecEnd {
                base: 0,
                kept,
                start: st.out,
                outer: st.taint,
                spec: Spec::Param(name, 0),
            },
            at + offsets::PA_SIZE,
        );
    }
    let inside = open_value(lent.frames, limits, st, at)?;
    let (after, next) = analyze(
        tree,
        lent,
        limits,
        inside,
        at + offsets::PA_SIZE,
        nest,
        Naming::Unnamed,
        here,
    )?;
    let frames = &mut *lent.frames;
    close_spec(
        lent.out,
        lent.locals,
        lent.references,
        frames,
        lent.captures,
        limits,
        after,
        at,
        SpecEnd {
            base: 0,
            kept,
            start: st.out,
            outer: st.taint,
            spec: Spec::Param(name, 1),
        },
        next,
    )
}

// n parameters.
#[cycle(analysis)]
fn on_params(
    tree: &[u8],
    lent: &mut Lent<'_>,
    limits: Limits,
    st: AnalysisStack,
    at: usize,
    nest: u32,
    n: u32,
    here: Place,
) -> Specs
    requires ready { Ready limits (contents lent.old)
        st tree.now at nest here }
    requires accepted { Accepted (params_at tree.now nest n at) }
    ensures walks { WalksSpecs result limits (contents lent.old) (contents lent.new) st (λ
        limits σ. run_params tree.now limits nest n at 0 (place_of here) σ) }
    ensures same_buffers { SameBuffers lent.old lent.new }
{
    let mut state = st;
    let mut p = at;
    let mut kept: u32 = 0;
    for _ in 0..n {
        (state, p, kept) = on_param(tree, lent, limits, state, p, nest, kept, here)?;
    }
    Ok((state, p, kept))
}
