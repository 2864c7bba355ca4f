// The report of an accepted tree in words.
use call_root::AnalysisReport;
use slots_text::diagnostics::Tally;
use std::{fmt, io};
use value_depths::NEVER;

// A depth, of which the greatest number stands for none.
#[derive(Drop)]
struct Depth(u32);

impl fmt::Display for Depth {
    fn fmt<W: fmt::Write>(&self, f: &mut fmt::Formatter<W>) -> fmt::Result {
        match self.0 {
            NEVER => write!(f, "none"),
            depth => write!(f, "{depth}"),
        }
    }
}

// The summary of an accepted tree.
pub fn show_report(
    rt: &impl Print,
    r: AnalysisReport,
    tree_length: usize,
    records: usize,
    tally: Tally,
) -> io::Result<()> {
    let Tally { errors, warnings } = tally;
    println!(rt; "accepted: errors {errors}, warnings {warnings}")?;
    let AnalysisReport {
        rounds,
        depths,
        out_length,
        diagnostics_length,
        ..
    } = r;
    let object = Depth(depths.object_dependent_depth);
    let local = Depth(depths.local_dependent_depth);
    let most = depths.local_dependent_depth_max;
    println!(rt; "rounds {rounds}; depths: object {object}, local {local}, greatest local {most}")?;
    println!(rt;
        "bytes: tree {tree_length}, output {out_length} in {records} records, diagnostics {diagnostics_length}"
    )
}
