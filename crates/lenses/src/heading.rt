// The heading of a tested area: the start, the edition, the accepted deliveries, and whether the run is over.
ghost use Rattle.std.specs.Prelude.{◌≡◌, true, ◌≤◌};
ghost use Rattle.checks.specs.Run.{most_deliveries, over};
ghost use Rattle.areas.specs.Area.{run_in, keeping, area_right};
ghost use Rattle.areas.specs.Replaced.{put_count};
ghost use Rattle.lenses.specs.Ready.{Ready};

use crate::tested::Tested;
use areas::{places, words};
use tables::Sizes;

// N and M of a well-formed area.
pub fn sizes_of(area: &[i32]) -> Sizes
    requires { area_right area.now ≡ true }
    ensures { Ready area.now result }
{
    Sizes {
        n: words::unsigned(area[places::N_PLACE]) as usize,
        m: words::unsigned(area[places::M_PLACE]) as usize,
    }
}

impl Tested<'_> {
    // The start process.
    pub fn start(self) -> usize
        ensures { result ≡ (run_in self.entry.words.now).start }
    {
        words::unsigned(self.words[places::START]) as usize
    }

    // The edition named at start (02, N4).
    pub fn edition(self) -> u32
        ensures { result ≡ (run_in self.entry.words.now).edition }
    {
        words::unsigned(self.words[places::EDITION])
    }

    // The accepted deliveries.
    pub fn count(self) -> u32
        ensures { result ≡ (run_in self.entry.words.now).count }
    {
        words::unsigned(self.words[places::COUNT])
    }

    // "It is over exactly while num of its start is 0."
    pub fn is_over(self) -> bool
        ensures { result ≡ over (run_in self.entry.words.now) }
    {
        let start = self.start();
        let record = places::record_start(self.sizes, start);
        words::unsigned(self.words[record + places::NUM]) == 0
    }
}

// Sets the number of accepted deliveries.
pub fn put_count(area: &mut [i32], sizes: Sizes, count: u32)
    requires ready { Ready area.old sizes }
    requires within_most_deliveries { count ≤ most_deliveries }
    ensures { area.new ≡ keeping area.old (put_count (run_in area.old) count) }
{
    area[places::COUNT] = count as i32;
}
