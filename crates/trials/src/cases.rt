// One case: a wait graph and a start. Its table is written by the library, searched by the bytes, and run in many orders, under
// both editions.
use comparing::{Searched, written};
use drawing::families::{Case, Family};
use drawing::numbers;
use expecting::faults::Fault;
use expecting::{Expected, starts};
use ordering::{Course, Links, Order};
use searching::{Edition, Found};

// What a family adds up to: its cases, how many of them the search finds to be knots by the first edition and by the second, and to be returned
// (02, N3), the runs, their deliveries, how many of these overtook and how many running on with a seed made; the last random number; the start of
// the case at hand.
#[derive(Clone, Copy, Default)]
pub struct Tally {
    pub cases: u64,
    pub first: u64,
    pub second: u64,
    pub returned: u64,
    pub runs: u64,
    pub deliveries: u64,
    pub overtaking: u64,
    pub shuffled: u64,
    pub seed: usize,
    pub start: usize,
    pub last: LastRun,
}

// The last run: the numbers of its edition and its order, A and D.
#[derive(Clone, Copy, Default)]
pub struct LastRun {
    pub edition: u64,
    pub order: u64,
    pub made: u32,
    pub due: u32,
}

impl Tally {
    // The knots and the returned cases with what the search expects.
    fn count_searched(&mut self, e: &Expected) {
        self.first = self.first.saturating_add(u64::from(e.first));
        self.second = self.second.saturating_add(u64::from(e.second));
        self.returned = self.returned.saturating_add(u64::from(e.idlers == 0));
    }

    // One more run.
    fn count_run(&mut self, edition: Edition, order: Order, c: &Course) {
        self.runs = self.runs.saturating_add(1);
        self.deliveries = self.deliveries.saturating_add(u64::from(c.made));
        self.overtaking = self.overtaking.saturating_add(u64::from(c.overtaking));
        self.shuffled = self.shuffled.saturating_add(u64::from(c.shuffled));
        self.last = LastRun {
            edition: edition as u64,
            order: order.number(),
            made: c.made,
            due: c.due,
        };
    }

    // The order of run k + 1 of a case in so many runs before the shuffled one: first the fixed order at once, then the others in turn,
    // beginning at another one in each case. The last but one overtakes (02, N5), and the last runs on with seeds (02, N13).
    fn order(&self, k: usize, runs: usize) -> Order {
        let links = Links::UNSEEDED[(k % 8 + (self.cases % 8) as usize) % 8];
        if k == 0 {
            Order::from(Links::AtOnce)
        } else if k == runs {
            Order::shuffled(numbers::next(self.seed))
        } else if k.saturating_add(1) == runs {
            Order::overtaking(links, self.seed)
        } else {
            Order::from(links)
        }
    }

    // The edition of run k + 1 of a case: the two in turn, so that every case has both; which is first changes after eight cases, so that every
    // order has both.
    fn edition(&self, k: usize) -> Edition {
        if (k % 2 == 0) == (self.cases / 8 % 2 == 0) {
            Edition::First
        } else {
            Edition::Second
        }
    }

    // Run k + 1 of a case. The next random number follows, but for the shuffled run, which leaves the one that it began with, so that it has no
    // part in which cases are drawn.
    fn one_run(
        &mut self,
        area: &mut [i32],
        case: &Searched<'_>,
        k: usize,
        runs: usize,
    ) -> Result<(), Fault> {
        let edition = self.edition(k);
        let order = self.order(k, runs);
        let case = Searched {
            expected: Expected {
                edition,
                ..case.expected
            },
            ..*case
        };
        let mut c = starts::course(&case.expected, self.seed);
        let told = comparing::run(area, &case, order, &mut c);
        self.count_run(edition, order, &c);
        if k != runs {
            self.seed = numbers::next(self.seed);
        }
        told
    }

    // The runs of a case, the shuffled one after the others, in words of its own: those that a start needs, and sixteen more.
    fn every_run(&mut self, case: &Searched<'_>, runs: usize) -> Result<(), Fault> {
        let mut area = [0i32; 11296];
        let Some(words) = area.get_mut(..case.expected.needed() + 16) else {
            return Err(Fault::Waits);
        };
        for k in 0..=runs {
            self.one_run(words, case, k, runs)?;
        }
        Ok(())
    }

    // The case of a written table: searches it from the start, and runs it.
    fn try_table(&mut self, table: &[u8], case: &Case, runs: usize) -> Result<(), Fault> {
        let list = case.waits.as_slice();
        written::compare(table, case.n, list)?;
        let mut found = Found::NOTHING;
        found.mark_waits(table);
        found.spread(case.start);
        let expected = starts::found_of(table, &found, case.start);
        self.count_searched(&expected);
        let searched = Searched {
            table,
            list,
            found: &found,
            expected,
        };
        self.every_run(&searched, runs)
    }

    // One more case, in so many runs: writes the table of its waits, and tries it.
    fn try_case(&mut self, case: &Case, runs: usize) -> Result<(), Fault> {
        self.cases = self.cases.saturating_add(1);
        self.seed = case.seed;
        self.start = case.start;
        let mut room = [0u8; 4612];
        let answer = table_writer::write(case.n, case.waits.as_slice(), &mut room);
        let length = answer.or(Err(Fault::Writing))?;
        let table = room.get(..length).ok_or(Fault::Writing)?;
        self.try_table(table, case, runs)
    }

    // The cases of a family, up to the first difference.
    pub fn try_family(&mut self, family: Family) -> Result<(), Fault> {
        for k in 0..family.cases {
            self.try_case(&family.case(k, self.seed), family.runs)?;
        }
        Ok(())
    }
}
