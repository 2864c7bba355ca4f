// One stored call, and what is lent to it.
use bytes_read::number_at;
use call_root::AnalysisReport;
use state::{Lent, Limits};

// A call's head, whose numbers stand at fixed offsets; the tree; and the bytes of both buffers that it is to leave.
#[derive(Clone, Copy)]
pub struct Stored<'a> {
    pub head: &'a [u8],
    pub tree: &'a [u8],
    pub out: &'a [u8],
    pub diagnostics: &'a [u8],
}

impl Stored<'_> {
    pub fn number(&self, at: usize) -> u64 {
        number_at(self.head, at) as u64
    }

    // L, F, C and R.
    pub fn limits(&self) -> Limits {
        Limits {
            max_locals: number_at(self.head, 4),
            max_frames: number_at(self.head, 8),
            max_captures: number_at(self.head, 12),
            max_references: number_at(self.head, 16),
        }
    }

    // How many numbers the tables have for locals, frames, captures and references, and how many bytes the output and the
    // diagnostics.
    pub fn sizes(&self) -> [usize; 6] {
        [20, 24, 28, 32, 36, 40].map(|at| number_at(self.head, at) as usize)
    }
}

// The report of the call, which is lent all six buffers.
pub fn analyzed(tree: &[u8], lent: &mut Lent<'_>, limits: Limits) -> AnalysisReport {
    analyze::analyze_root(
        tree,
        lent.out,
        lent.diagnostics,
        lent.locals,
        lent.frames,
        lent.captures,
        lent.references,
        limits,
    )
}
