//! What the program ends with.
ghost use Rattle.std.specs.Prelude.{◌≡◌, None};
ghost use Rattle.hlo_cmd.specs.Reports.{report_of};

use naim_loader::Counters;

/// The exit status of the program: 0 for success, 2 for words that no command has, 3 for files that are refused, 4 for a
/// profile that is none, 5, 6, 7 and 11 where reading a file, writing, the scratch disk and reading the input failed, 8 where
/// a record on the scratch disk was changed, 9 for a limit that is too small, 10 where memory ran out, 12 and 13 where a
/// program trapped or wanted a turn more, 14 for a text that is no program's.
#[derive(Clone, Copy, Debug, PartialEq, Eq)]
pub struct Status(pub u8);

/// What a run of `opt` tells of itself. Charges are in the stated bytes, costs are sums of squared sizes.
#[derive(Clone, Copy)]
pub struct Report {
    /// The most bytes that were charged at one time, what workers hold included.
    pub charged_peak: u64,
    /// The most bytes that were charged under the limit.
    pub under_peak: u64,
    /// How many routines were compacted.
    pub compactions: u64,
    /// How many routines were written to the scratch disk.
    pub offloads: u64,
    /// How many routines were brought back for use.
    pub reloads: u64,
    /// The cost of the lowered program.
    pub cost_before: u64,
    /// The cost of the printed program.
    pub cost_after: u64,
}

impl Report {
    /// The report of a run with these counters, where the lowered program and the printed one have these costs.
    pub(crate) fn of(counters: Counters, before: u64, after: u64) -> Report
        ensures { result ≡ report_of counters before after }
    {
        Report {
            charged_peak: counters.charged_peak,
            under_peak: counters.under_peak,
            compactions: counters.compactions,
            offloads: counters.offloads,
            reloads: counters.reloads,
            cost_before: before,
            cost_after: after,
        }
    }
}

/// What `opt` answers: its status, the disk that it was handed, and a report exactly at status 0.
#[derive(Drop)]
pub struct OptAnswer<D> {
    pub status: Status,
    pub disk: D,
    pub report: Option<Report>,
}

impl<D> OptAnswer<D> {
    /// The answer with a status that tells a refusal.
    pub(crate) fn refused(status: Status, disk: D) -> OptAnswer<D>
        ensures { result ≡ record { status = status; disk = disk; report = None } }
    {
        OptAnswer {
            status,
            disk,
            report: None,
        }
    }
}
