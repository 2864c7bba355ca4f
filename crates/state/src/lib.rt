// The state of the analysis, which goes by value beside the buffers that the caller lends; the answers of steps and walks.

#![tactic(auto)]

use refusal::Refusal;
use value_depths::AnalysisResult;
use value_local::LocalId;

// How many entries of each table and how many bytes of each buffer are in use, what was met of the present object, what the
// present value depends on, whether an error was reported, and the rounds so far. `out` and `rounds` stand
// first, where a refusal has its place and its reason: what lies under a reason of one byte is stored in parts, which `rounds` bears, since nothing waits for it.
#[derive(Clone, Copy)]
pub struct AnalysisStack {
    pub out: usize,
    pub rounds: u64,
    pub locals: u32,
    pub frames: u32,
    pub captures: u32,
    pub references: u32,
    pub taint: AnalysisResult,
    pub self_used: bool,
    pub super_used: bool,
    pub dollar_used: bool,
    pub errored: bool,
    pub diagnostics: usize,
}

// L, F, C and R.
#[derive(Clone, Copy)]
pub struct Limits {
    pub max_locals: u32,
    pub max_frames: u32,
    pub max_captures: u32,
    pub max_references: u32,
}

// The six buffers that the caller lends to be written to.
#[derive(Drop)]
pub struct Lent<'a> {
    pub out: &'a mut [u8],
    pub diagnostics: &'a mut [u8],
    pub locals: &'a mut [u32],
    pub frames: &'a mut [u32],
    pub captures: &'a mut [u32],
    pub references: &'a mut [u32],
}

// The same six, lent to a step that opens no frame and keeps no reference: those two tables are only read.
#[derive(Drop)]
pub struct Within<'a> {
    pub out: &'a mut [u8],
    pub diagnostics: &'a mut [u8],
    pub locals: &'a mut [u32],
    pub frames: &'a [u32],
    pub captures: &'a mut [u32],
    pub references: &'a [u32],
}

// The state after a step.
pub type Step = Result<AnalysisStack, Refusal>;

// The state after a walk, and the place after what was walked.
pub type Walked = Result<(AnalysisStack, usize), Refusal>;

// The same after a walk over a frame's specs, with how many of them are kept.
pub type Specs = Result<(AnalysisStack, usize, u32), Refusal>;

// Where an expression stands: the depth, and the ids of the innermost object's `this` and of the outermost's, if there is one.
#[derive(Clone, Copy)]
pub struct Place {
    pub depth: u32,
    pub in_object: bool,
    pub this_local: LocalId,
    pub dollar_alias: LocalId,
}

// What a function is called, and the span that its warning bears if it isn't its own.
#[derive(Clone, Copy)]
pub enum Naming {
    Unnamed,
    AsBind(u32, u32),
    AsMethod(u32, u32),
    AsComputedMethod(u32),
}
