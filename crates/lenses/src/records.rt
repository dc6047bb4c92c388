// The record of one process in a tested area.
ghost use Rattle.std.specs.Prelude.{◌≡◌, true, ◌≤◌};
ghost use Rattle.steps.specs.Step.{in_range};
ghost use Rattle.checks.specs.Run.{father_right};
ghost use Rattle.areas.specs.Area.{run_in, keeping};
ghost use Rattle.areas.specs.Replaced.{put_process};
ghost use Rattle.lenses.specs.Ready.{Ready};

use crate::tested::Tested;
use areas::{places, words};
use steps::Process;
use tables::Sizes;

impl Tested<'_> {
    // The record of p.
    pub fn process(self, p: usize) -> Process
        requires { (1 ≤ p) × (p ≤ self.sizes.n) }
        ensures { result ≡ (run_in self.entry.words.now).process p }
    {
        words::record_at(self.words, places::record_start(self.sizes, p))
    }
}

// Gives p another record.
pub fn put_process(area: &mut [i32], sizes: Sizes, p: usize, x: Process)
    requires ready { Ready area.old sizes }
    requires is_process { (1 ≤ p) × (p ≤ sizes.n) }
    requires in_range { in_range x ≡ true }
    requires father_right { father_right (run_in area.old).waits p x ≡ true }
    ensures { area.new ≡ keeping area.old (put_process (run_in area.old) p x) }
{
    let k = places::record_start(sizes, p);
    words::put_record(area, k, x);
}
