// The page of a run's forward events for a host outside Rattle.
#![tactic(auto)]

ghost use Rattle.std.specs.Prelude.{◌≡◌};
ghost use Rattle.host_report.specs.Report.{report_exit, report};

use events::Event;

// The page of the first `count` rows to the start of out: done with its length, or refused.
pub fn report(rows: &[Event], count: usize, out: &mut [u8]) -> u64
    ensures { report_exit result out.new ≡ report rows.now count out.old }
{
    host_answer::count_answer(report::write_report(rows, count, out))
}
