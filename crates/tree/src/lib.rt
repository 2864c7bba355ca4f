// The first walk over a packed tree. `walk_only`, `walk_plain`, `walk_held`, `walk_bind` and `walk_value` hand another's answer on by `Ok(f(..)?)`
// and not by `f(..)`: so only the place goes on, and not a copy of all that an answer may hold. What is inlined is told a mark that most callers know.

#![tactic(auto)]

ghost use Rattle.std.specs.Prelude.{◌≡◌, ◌+◌, ◌≤◌, ◌<◌, length};
ghost use Rattle.rules.specs.Numbers.{FH as field_head, numbers_at};
ghost use Rattle.rules.specs.Records.{numbers_of, fields, all_in_range};
ghost use Rattle.rules.specs.FirstWalk.{any_expression, expr_at, tree_at};
ghost use Rattle.bytes_records.specs.Marks.{mark_of};
ghost use Rattle.bytes_skip.specs.Places.{past, over, judged_at, exprs_past, expr_past, held_past};
ghost use Rattle.tree.specs.Seen.{seen, ended};
ghost use Rattle.tree.specs.Places.{Ends, Lone, lone, bind_past, value_past, values_past};
ghost use Rattle.tree.specs.Places.{plain_past, array_past, extended_past, local_past, call_past, index_past, function_past, object_past};
ghost use Rattle.tree.specs.Left.{Opened, Expected};

use bytes_read::{mark_at, number_at};
use bytes_records::{
    AP, AR, AS, AT, BF, BI, BV, ER, FH, FN, ID, IF, IM, IX, JT, LO, NA, OB, OX, PA, PT, SC, TV, UN,
    VA, children, constants, count_at, has_room, offsets, size_of,
};
use bytes_skip::after_head;
use refusal::{Reason, Refusal};

// Whether a field's head that the bytes begin with has its kind, flags and visibility in range.
fn head_in_range(bytes: &[u8]) -> bool
    ensures { result ≡ all_in_range (fields field_head) (numbers_at bytes.now 6 2) }
{
    number_at(bytes, offsets::FH_KIND) < 2
        && number_at(bytes, offsets::FH_PLUS) < 2
        && number_at(bytes, offsets::FH_VISIBILITY) < 3
        && number_at(bytes, offsets::FH_METHOD) < 2
}

// Whether the record with this mark that the bytes begin with has its flags, kind, set and visibility in range.
#[inline(always)]
fn in_range(bytes: &[u8], mark: u32) -> bool
    ensures { result ≡ all_in_range (fields (mark_of mark)) (numbers_at bytes.now (numbers_of (mark_of mark)) 2) }
{
    match mark {
        ID => number_at(bytes, offsets::ID_KIND) < 3,
        AS => number_at(bytes, offsets::AS_MESSAGE) < 2,
        IM => number_at(bytes, offsets::IM_LITERAL) < 2,
        AP => number_at(bytes, offsets::AP_TAILSTRICT) < 2,
        IF => number_at(bytes, offsets::IF_ELSE) < 2,
        SC => number_at(bytes, offsets::SC_SET) < 8,
        PA => number_at(bytes, offsets::PA_DEFAULT) < 2,
        AT => number_at(bytes, offsets::AT_MESSAGE) < 2,
        FH => head_in_range(bytes),
        _ => true,
    }
}

// The place after the record with this mark, where it is whole and in range.
#[inline(always)]
fn judged(tree: &[u8], at: usize, mark: u32) -> Result<usize, Refusal>
    ensures { seen result ≡ judged_at tree.now (mark_of mark) at }
{
    let size = size_of(mark);
    if !has_room(tree, at, size) {
        return Err(Reason::CutShort.at(at));
    }
    if !in_range(&tree[at..], mark) {
        return Err(Reason::OutOfRange.at(at));
    }
    Ok(at + size)
}

// The place after an expression's own record with this mark, where it is whole and in range and a level is left for it.
fn opened(tree: &[u8], at: usize, nest: u32, mark: u32) -> Result<usize, Refusal>
    ensures { Opened tree.now nest mark at result }
{
    let next = judged(tree, at, mark)?;
    if nest == 0 {
        return Err(Reason::TooDeep.at(at));
    }
    Ok(next)
}

// The place after the record at an offset, which must have this mark.
#[inline(always)]
fn expect(tree: &[u8], at: usize, mark: u32) -> Result<usize, Refusal>
    ensures { Expected tree.now mark at result }
{
    if !has_room(tree, at, 2) {
        return Err(Reason::CutShort.at(at));
    }
    if mark_at(tree, at) != mark {
        return Err(Reason::WrongMark.at(at));
    }
    judged(tree, at, mark)
}

// The place after the expression at an offset, with `nest` levels left for it and what stands below it; or the first refusal.
#[cycle(first_walk)]
pub fn walk_expr(tree: &[u8], at: usize, nest: u32) -> Result<usize, Refusal>
    ensures { seen result ≡ past (expr_at tree.now nest any_expression at) }
{
    if !has_room(tree, at, 2) {
        return Err(Reason::CutShort.at(at));
    }
    let mark = mark_at(tree, at);
    // An arm for each mark, so that what is inlined there knows it: with shared arms the walk takes about twice the time.
    match mark {
        ID => opened(tree, at, nest, mark),
        TV => opened(tree, at, nest, mark),
        VA => opened(tree, at, nest, mark),
        AR => walk_array(tree, at, nest),
        OX => walk_extended(tree, at, nest),
        UN => walk_plain(tree, at, nest, mark),
        BI => walk_plain(tree, at, nest, mark),
        AS => walk_plain(tree, at, nest, mark),
        LO => walk_local(tree, at, nest),
        ER => walk_plain(tree, at, nest, mark),
        IM => opened(tree, at, nest, mark),
        AP => walk_call(tree, at, nest),
        IX => walk_index(tree, at, nest),
        FN => walk_function(tree, at, nest),
        IF => walk_plain(tree, at, nest, mark),
        SC => walk_plain(tree, at, nest, mark),
        OB => walk_object(tree, at, nest),
        _ => Err(Reason::WrongMark.at(at)),
    }
}

// An expression that must be an `FN`, or an `OB`.
#[cycle(first_walk)]
fn walk_only(tree: &[u8], at: usize, nest: u32, mark: u32) -> Result<usize, Refusal>
    requires { Lone mark }
    ensures { seen result ≡ expr_past tree.now nest (lone mark) at }
{
    if !has_room(tree, at, 2) {
        return Err(Reason::CutShort.at(at));
    }
    if mark_at(tree, at) != mark {
        return Err(Reason::WrongMark.at(at));
    }
    Ok(walk_expr(tree, at, nest)?)
}

// n expressions. Three such loops stay: one over an enum needs the enum, a match and a measure by its cases; over a closure, two clauses at each call.
#[cycle(first_walk)]
fn walk_exprs(tree: &[u8], at: usize, nest: u32, n: usize) -> Result<usize, Refusal>
    ensures { seen result ≡ exprs_past tree.now nest n at }
{
    let mut p = at;
    for _ in 0..n {
        p = walk_expr(tree, p, nest)?;
    }
    Ok(p)
}

// `UN`, `BI`, `AS`, `ER`, `IF` or `SC`.
#[cycle(first_walk)]
fn walk_plain(tree: &[u8], at: usize, nest: u32, mark: u32) -> Result<usize, Refusal>
    ensures { seen result ≡ plain_past tree.now nest mark at }
{
    let next = opened(tree, at, nest, mark)?;
    let n = children(&tree[at..], mark);
    Ok(walk_exprs(tree, next, nest - 1, n)?)
}

// `AR`, whose items count for no nesting where all are constants.
#[cycle(first_walk)]
fn walk_array(tree: &[u8], at: usize, nest: u32) -> Result<usize, Refusal>
    ensures { seen result ≡ array_past tree.now nest at }
{
    let next = opened(tree, at, nest, AR)?;
    let n = count_at(tree, at + offsets::AR_COUNT);
    if constants(tree, next, n) {
        return Ok(next + offsets::TV_SIZE * n);
    }
    walk_exprs(tree, next, nest - 1, n)
}

// `OX`: a base and an `OB`.
#[cycle(first_walk)]
fn walk_extended(tree: &[u8], at: usize, nest: u32) -> Result<usize, Refusal>
    ensures { seen result ≡ extended_past tree.now nest at }
{
    let next = opened(tree, at, nest, OX)?;
    let object = walk_expr(tree, next, nest - 1)?;
    walk_only(tree, object, nest - 1, OB)
}

// `LO`: binds and a body.
#[cycle(first_walk)]
fn walk_local(tree: &[u8], at: usize, nest: u32) -> Result<usize, Refusal>
    ensures { seen result ≡ local_past tree.now nest at }
{
    let next = opened(tree, at, nest, LO)?;
    let body = walk_binds(
        tree,
        next,
        nest - 1,
        number_at(tree, at + offsets::LO_COUNT),
    )?;
    walk_expr(tree, body, nest - 1)
}

// `AP`: a callee and values, then named arguments.
#[cycle(first_walk)]
fn walk_call(tree: &[u8], at: usize, nest: u32) -> Result<usize, Refusal>
    ensures { seen result ≡ call_past tree.now nest at }
{
    let next = opened(tree, at, nest, AP)?;
    let named = walk_exprs(
        tree,
        next,
        nest - 1,
        1 + count_at(tree, at + offsets::AP_VALUES),
    )?;
    walk_many(
        tree,
        named,
        nest - 1,
        number_at(tree, at + offsets::AP_NAMED),
        NA,
    )
}

// `IX`: a value and parts.
#[cycle(first_walk)]
fn walk_index(tree: &[u8], at: usize, nest: u32) -> Result<usize, Refusal>
    ensures { seen result ≡ index_past tree.now nest at }
{
    let next = opened(tree, at, nest, IX)?;
    let parts = walk_expr(tree, next, nest - 1)?;
    walk_many(
        tree,
        parts,
        nest - 1,
        number_at(tree, at + offsets::IX_COUNT),
        PT,
    )
}

// `FN`: parameters and a body.
#[cycle(first_walk)]
fn walk_function(tree: &[u8], at: usize, nest: u32) -> Result<usize, Refusal>
    ensures { seen result ≡ function_past tree.now nest at }
{
    let next = opened(tree, at, nest, FN)?;
    let body = walk_many(
        tree,
        next,
        nest - 1,
        number_at(tree, at + offsets::FN_COUNT),
        PA,
    )?;
    walk_expr(tree, body, nest - 1)
}

// `OB`: heads, binds, assertions and values.
#[cycle(first_walk)]
fn walk_object(tree: &[u8], at: usize, nest: u32) -> Result<usize, Refusal>
    ensures { seen result ≡ object_past tree.now nest at }
{
    let heads = opened(tree, at, nest, OB)?;
    let f = number_at(tree, at + offsets::OB_FIELDS);
    let locals = walk_many(tree, heads, nest - 1, f, FH)?;
    let assertions = walk_binds(
        tree,
        locals,
        nest - 1,
        number_at(tree, at + offsets::OB_BINDS),
    )?;
    let values = walk_many(
        tree,
        assertions,
        nest - 1,
        number_at(tree, at + offsets::OB_ASSERTIONS),
        AT,
    )?;
    walk_values(tree, values, nest - 1, f, heads)
}

// `PA`, `FH`, `NA`, `PT`, `AT` or `BV`, with the expressions below it.
#[cycle(first_walk)]
#[inline(always)]
fn walk_held(tree: &[u8], at: usize, nest: u32, mark: u32) -> Result<usize, Refusal>
    ensures { seen result ≡ held_past tree.now nest mark at }
{
    let next = expect(tree, at, mark)?;
    let n = children(&tree[at..], mark);
    Ok(walk_exprs(tree, next, nest, n)?)
}

// n times such a record.
#[cycle(first_walk)]
fn walk_many(tree: &[u8], at: usize, nest: u32, n: u32, mark: u32) -> Result<usize, Refusal>
    ensures { seen result ≡ over n (held_past tree.now nest mark) at }
{
    let mut p = at;
    for _ in 0..n {
        p = walk_held(tree, p, nest, mark)?;
    }
    Ok(p)
}

// A bind: `BF` and an `FN`, or `BV` and a value.
#[cycle(first_walk)]
fn walk_bind(tree: &[u8], at: usize, nest: u32) -> Result<usize, Refusal>
    ensures { seen result ≡ bind_past tree.now nest at }
{
    if mark_at(tree, at) != BF {
        return Ok(walk_held(tree, at, nest, BV)?);
    }
    let next = expect(tree, at, BF)?;
    Ok(walk_only(tree, next, nest, FN)?)
}

// n binds.
#[cycle(first_walk)]
fn walk_binds(tree: &[u8], at: usize, nest: u32, n: u32) -> Result<usize, Refusal>
    ensures { seen result ≡ over n (bind_past tree.now nest) at }
{
    let mut p = at;
    for _ in 0..n {
        p = walk_bind(tree, p, nest)?;
    }
    Ok(p)
}

// The value of the field whose head stands at `head`.
#[cycle(first_walk)]
fn walk_value(tree: &[u8], at: usize, nest: u32, head: usize) -> Result<usize, Refusal>
    requires { head + 26 ≤ length tree.now }
    ensures { seen result ≡ value_past tree.now nest head at }
{
    if number_at(tree, head + offsets::FH_METHOD) == 0 {
        return Ok(walk_expr(tree, at, nest)?);
    }
    Ok(walk_only(tree, at, nest, FN)?)
}

// The values of n fields, whose heads were read from `heads` on.
#[cycle(first_walk)]
fn walk_values(tree: &[u8], at: usize, nest: u32, n: u32, heads: usize) -> Result<usize, Refusal>
    requires { Ends (over n (held_past tree.now nest 0x4648) heads) }
    ensures { seen result ≡ values_past tree.now nest n heads at }
{
    let mut p = at;
    let mut head = heads;
    for _ in 0..n {
        p = walk_value(tree, p, nest, head)?;
        head = after_head(tree, head);
    }
    Ok(p)
}

// The whole tree: its end, or the first refusal in byte order.
pub fn first_walk(tree: &[u8]) -> Result<usize, Refusal>
    ensures { seen result ≡ ended (length tree.now) (tree_at tree.now) }
{
    let names = expect(tree, 0, JT)?;
    let n = number_at(tree, offsets::TREE_COUNT);
    if 65535 < n {
        return Err(Reason::TooManyNames.at(0));
    }
    let root = names + 4 * n as usize;
    if tree.len() < root {
        return Err(Reason::CutShort.at(0));
    }
    let end = walk_expr(tree, root, 200)?;
    if end != tree.len() {
        return Err(Reason::BytesBehind.at(end));
    }
    Ok(end)
}
