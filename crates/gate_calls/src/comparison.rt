// What a call leaves beside what is stored of it.
use crate::stored::Stored;
use call_root::AnalysisReport;
use std::io;

// Whether a call agrees so far; its first difference begins its line.
#[derive(Drop)]
pub struct Comparison<'a, P: Print> {
    rt: &'a P,
    call: u32,
    agreed: bool,
}

impl<'a, P: Print> Comparison<'a, P> {
    pub fn new(rt: &'a P, call: u32) -> Comparison<'a, P> {
        Comparison {
            rt,
            call,
            agreed: true,
        }
    }

    fn differ(&mut self, what: &str) -> io::Result<()> {
        let call = self.call;
        if self.agreed {
            print!(self.rt; "differs: {call}")?;
        }
        self.agreed = false;
        self.rt.print(what)
    }

    fn hold(&mut self, what: &str, same: bool) -> io::Result<()> {
        if same { Ok(()) } else { self.differ(what) }
    }

    fn hold_number(&mut self, what: &str, found: u64, stored: u64) -> io::Result<()> {
        if found == stored {
            return Ok(());
        }
        self.differ(what)?;
        print!(self.rt; "{found} for {stored}")
    }

    // All that the report says beside the head's numbers.
    pub fn hold_report(&mut self, stored: &Stored<'_>, r: &AnalysisReport) -> io::Result<()> {
        let depths = r.depths;
        self.hold_number(" number ", r.number as u64, stored.number(48))?;
        self.hold_number(" place ", r.place as u64, stored.number(52))?;
        self.hold_number(" output length ", r.out_length as u64, stored.number(56))?;
        self.hold_number(
            " diagnostics length ",
            r.diagnostics_length as u64,
            stored.number(60),
        )?;
        self.hold_number(" errored ", u64::from(r.errored), stored.number(64))?;
        self.hold_number(" rounds ", r.rounds, stored.number(68))?;
        self.hold_number(
            " object depth ",
            depths.object_dependent_depth as u64,
            stored.number(72),
        )?;
        self.hold_number(
            " local depth ",
            depths.local_dependent_depth as u64,
            stored.number(76),
        )?;
        self.hold_number(
            " greatest local depth ",
            depths.local_dependent_depth_max as u64,
            stored.number(80),
        )
    }

    // A buffer holds the stored bytes and after them zeros.
    pub fn hold_bytes(&mut self, what: &str, found: &[u8], stored: &[u8]) -> io::Result<()> {
        self.hold(what, found.starts_with(stored))?;
        if found.iter().skip(stored.len()).all(|byte| *byte == 0) {
            return Ok(());
        }
        self.differ(what)?;
        print!(self.rt; " behind the end not zero")
    }

    pub fn hold_zero(&mut self, what: &str, numbers: &[u32]) -> io::Result<()> {
        self.hold(what, numbers.iter().all(|number| *number == 0))
    }

    // Whether the call agrees; a line that was begun is ended.
    pub fn end(self) -> io::Result<bool> {
        if !self.agreed {
            println!(self.rt)?;
        }
        Ok(self.agreed)
    }
}
