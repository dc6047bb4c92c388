// The lines of the processes and of the report, with which the check program's output ends, put behind those before (01, "The check program";
// program_text, `Program`). It stands on `reports`, `lenses`, `lines` and below; it refuses nothing, and puts the number of a refused report.
#![tactic(auto)]

ghost use Rattle.areas.specs.Area.{run_in};
ghost use Rattle.checks.specs.Calls.{report};
ghost use Rattle.lines.specs.Adding.{HasRoom, Adds};
ghost use Rattle.program_text.specs.Program.{processes_text, report_lines, end_text};

use lenses::tested::Tested;
use lines::Page;

// "process lines rise"
fn put_processes(page: &mut Page, area: Tested)
    requires { HasRoom page.old (processes_text (run_in area.words.now)) }
    ensures { Adds page.old (processes_text (run_in area.entry.words.now)) page.new }
{
    for p in 1..=area.sizes.n {
        page.put_process(p as u32, area.process(p));
    }
}

// The report.
fn put_report(page: &mut Page, area: Tested)
    requires { HasRoom page.old (report_lines (report (run_in area.words.now))) }
    ensures { Adds page.old (report_lines (report (run_in area.entry.words.now))) page.new }
{
    match reports::report_in(area) {
        Ok(report) => page.put_report(report),
        Err(refusal) => page.put_refused(u32::from(refusal)),
    }
}

// The processes, and then the report.
pub fn put_end(page: &mut Page, area: Tested)
    requires { HasRoom page.old (end_text (run_in area.words.now)) }
    ensures { Adds page.old (end_text (run_in area.entry.words.now)) page.new }
{
    put_processes(page, area);
    put_report(page, area);
}
