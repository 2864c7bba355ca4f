// Literal imports and fields' heads, whose records are written from the tree's numbers.

#![tactic(auto)]

ghost use Rattle.std.specs.Prelude.{◌≡◌, ◌+◌, ◌≤◌, length};
ghost use Rattle.rules.specs.Outcome.{choose};
ghost use Rattle.rules.specs.Numbers.{number_at, is_set};
ghost use Rattle.step_emit.specs.Answers.{ImportAnalyzed, HeadEmitted};

use bytes_read::number_at;
use bytes_records::offsets;
use state::{AnalysisStack, Walked};
use step_write::{BadKind, Code, bad_place, emit};

// The path of a literal import, or error 6 and a bad place.
pub fn analyze_import(
    tree: &[u8],
    out: &mut [u8],
    diagnostics: &mut [u8],
    st: AnalysisStack,
    at: usize,
) -> Walked
    requires { at + 18 ≤ length tree.now }
    ensures { ImportAnalyzed result tree.now out.old out.new diagnostics.old diagnostics.new st at }
{
    let span = number_at(tree, at + offsets::IM_SPAN);
    if number_at(tree, at + offsets::IM_LITERAL) != 0 {
        let numbers = [
            number_at(tree, at + offsets::IM_KIND),
            span,
            number_at(tree, at + offsets::IM_PATH),
        ];
        let st = emit(out, st, at, b"IM", &numbers)?;
        return Ok((st, at + offsets::IM_SIZE));
    }
    let st = bad_place(
        out,
        diagnostics,
        st,
        at,
        Code::ImportComputed as u32,
        0,
        span,
        BadKind::Import as u32,
    )?;
    Ok((st, at + offsets::IM_SIZE))
}

// The name in a field's head: none where it is computed.
#[tactic(auto, using(rules::proofs::Flags::set_of, rules::proofs::Flags::unset_of), unfolding(rules::specs::Outcome::choose))]
fn head_name(tree: &[u8], at: usize, kind: u32) -> u32
    requires { at + 26 ≤ length tree.now }
    ensures { result ≡ choose (is_set kind) (λ _. 0) (λ _. number_at tree.now (at + 6)) }
{
    if kind != 0 {
        return 0;
    }
    number_at(tree, at + offsets::FH_NAME)
}

// A field's head, after its name where that is computed.
#[tactic(auto, using(crate::proofs::Laws::head_emitted, crate::proofs::Laws::placed, crate::proofs::Laws::refused, std::proofs::lemmas::Result::err_from_is_err_and))]
pub fn emit_head(tree: &[u8], out: &mut [u8], st: AnalysisStack, at: usize, next: usize) -> Walked
    requires { at + 26 ≤ length tree.now }
    ensures { HeadEmitted result tree.now out.old out.new st at next }
{
    let kind = number_at(tree, at + offsets::FH_KIND);
    let name = head_name(tree, at, kind);
    let numbers = [
        kind,
        name,
        number_at(tree, at + offsets::FH_PLUS),
        number_at(tree, at + offsets::FH_VISIBILITY),
    ];
    Ok((emit(out, st, at, b"FH", &numbers)?, next))
}
