// Locals in a lent table of sixteen numbers an entry. The table is the caller's, from C too: it has a flag beside a name or a place, not an option.

#![tactic(auto)]

ghost use Rattle.std.specs.Prelude.{◌≡◌, ℕ, ◌+◌, ◌*◌, ◌<◌, ◌≤◌, length};
ghost use Rattle.rules.specs.Locals.{local_at};
ghost use Rattle.table_rows.specs.Rows.{row};
ghost use Rattle.value_local.specs.Meaning.{local, binding_of};
ghost use Rattle.table_locals.specs.Meaning.{binding, local_of_row, locals_of, with_use, numbers};
ghost use Rattle.table_locals.specs.Tables.{PutLocal};

use value_depths::AnalysisResult;
use value_local::{Binding, LocalDefinition, LocalId};

// Where an entry has the numbers that are stored alone.
pub const USED_AT_DEPTH: usize = 1;

const USED_BY_SIBLING: usize = 2;

pub const SCRATCH_REFERENCED: usize = 7;

// What an entry's flag and number stand for.
#[tactic(auto, unfolding(value_local::specs::Meaning::binding_of, crate::specs::Meaning::binding))]
fn binding(is_record: bool, place: u32) -> Binding
    ensures { binding_of result ≡ binding is_record place }
{
    if is_record {
        Binding::Record(place)
    } else {
        Binding::External(place)
    }
}

// The local of an entry's numbers, read one by one: a pattern of the slice would want an arm for shorter ones.
fn from_entry(entry: &[u32]) -> LocalDefinition
    requires { length entry.now ≡ 16 }
    ensures { local result ≡ local_of_row entry.now }
{
    let analysis = AnalysisResult {
        object_dependent_depth: entry[3],
        local_dependent_depth: entry[4],
        local_dependent_depth_max: entry[5],
    };
    LocalDefinition {
        defined_at_depth: entry[0],
        used_at_depth: entry[1],
        used_by_sibling: entry[2] != 0,
        analysis,
        analyzed: entry[6] != 0,
        scratch_referenced: entry[7] != 0,
        span: entry[8],
        name: (entry[9] != 0).then_some(entry[10]),
        stands_for: binding(entry[11] != 0, entry[12]),
    }
}

// The local of an entry.
pub fn local_at(locals: &[u32], id: LocalId) -> LocalDefinition
    requires { 16 * id.0 + 16 ≤ length locals.now }
    ensures { (n : ℕ) → id.0 < n → local result ≡ local_at (locals_of n locals.now) id.0 }
{
    let from = 16 * (id.0 as usize);
    from_entry(&locals[from..from + 16])
}

// A local's numbers in an entry.
fn numbers(l: LocalDefinition) -> [u32; 13]
    ensures { result ≡ numbers l }
{
    let (is_record, place) = match l.stands_for {
        Binding::Record(place) => (true, place),
        Binding::External(position) => (false, position),
    };
    [
        l.defined_at_depth,
        l.used_at_depth,
        l.used_by_sibling as u32,
        l.analysis.object_dependent_depth,
        l.analysis.local_dependent_depth,
        l.analysis.local_dependent_depth_max,
        l.analyzed as u32,
        l.scratch_referenced as u32,
        l.span,
        l.name.is_some() as u32,
        l.name.unwrap_or(0),
        is_record as u32,
        place,
    ]
}

// A local into an entry.
pub fn put_local(locals: &mut [u32], id: LocalId, l: LocalDefinition)
    requires { 16 * id.0 + 16 ≤ length locals.old }
    ensures { PutLocal locals.old locals.new id.0 (local l) }
{
    let at = 16 * (id.0 as usize);
    locals[at..at + 13].copy_from_slice(&numbers(l));
}

// A local into its entry, where only what a use changes differs from what the entry holds.
pub fn put_use(locals: &mut [u32], id: LocalId, l: LocalDefinition)
    requires { (16 * id.0 + 16 ≤ length locals.old) × (with_use (local l) (local_of_row (row id.0 locals.old)) ≡ local
        l) }
    ensures { PutLocal locals.old locals.new id.0 (local l) }
{
    let entry = 16 * (id.0 as usize);
    locals[entry + USED_AT_DEPTH] = l.used_at_depth;
    locals[entry + USED_BY_SIBLING] = l.used_by_sibling as u32;
    locals[entry + SCRATCH_REFERENCED] = l.scratch_referenced as u32;
}
