// The orders in which the program `trials` brings a run to its end, and the calls past it: which call comes next. A list of pairs gives
// the links: the entry at place l is the sender of link l, and the other entry of its pair the receiver. It promises only that it is safe
// and ends.
#![tactic(auto)]

ghost use Rattle.std.specs.Prelude.{◌≡◌, ◌<◌};
ghost use Rattle.ordering.specs.declared.Places.TheVariants.{Oldest};

use drawing::numbers;
use drawing::waits::entry;

// The orders of the links.
#[derive(Clone, Copy, PartialEq, Eq)]
pub enum Links {
    // Running on at once.
    AtOnce,
    // Running on by a few deliveries at a time.
    Pieces,
    // Picks of links drawn at random; after some that were empty, in turn.
    Random,
    // Picks of the links out of the process that received last; after some that were empty, in turn.
    Newest,
    // Picks of the first link with a message in a fixed row of all links, another row than that of running on; with many links, in turn, and
    // only now and then again from the first.
    First,
    // Picks of the same link until it is empty.
    Same,
    // A pick of the list's first link, then of all others in turn, and of the first only while all others are empty.
    Late,
    // Picks in turn, and running on by a few deliveries between them.
    Mixed,
    // Picks of all links in turn, in rounds.
    Rounds,
    // Running on with a drawn seed (02, N13), at once.
    Shuffled,
    // Running on with a seed by a few deliveries at a time, each time with one drawn anew; now and then with the same one again.
    ShuffledPieces,
    // Picks in turn, and such pieces between them.
    ShuffledMixed,
}

impl Links {
    // Those without a seed, but for running on at once.
    pub const UNSEEDED: [Links; 8] = [
        Links::Pieces,
        Links::Random,
        Links::Newest,
        Links::First,
        Links::Same,
        Links::Late,
        Links::Mixed,
        Links::Rounds,
    ];

    // Those by running on with a seed.
    const SEEDED: [Links; 3] = [Links::Shuffled, Links::ShuffledPieces, Links::ShuffledMixed];

    fn is_seeded(self) -> bool {
        matches!(
            self,
            Links::Shuffled | Links::ShuffledPieces | Links::ShuffledMixed
        )
    }

    // By how many deliveries the order runs on now, by a random number; if it does.
    fn portion(self, x: usize) -> Option<u32> {
        match self {
            Links::AtOnce | Links::Shuffled => Some(u32::MAX),
            Links::Pieces | Links::ShuffledPieces => Some((x % 7) as u32),
            Links::Mixed | Links::ShuffledMixed if x % 4 == 0 => Some((x / 4 % 3) as u32),
            _ => None,
        }
    }

    // For how many tries in vain it keeps to its own choice, of so many links.
    fn patience(self, links: usize) -> usize {
        match self {
            Links::Random | Links::Newest => 16,
            Links::First | Links::Same => 1,
            Links::Late => links,
            _ => 0,
        }
    }
}

// From which places picks take. By all but the first they overtake wherever two messages wait (02, N5): on each link they try one place after
// the other downwards until they take a message, and go on below it now and then.
#[derive(Clone, Copy, PartialEq, Eq)]
pub enum Places {
    // The oldest message.
    Oldest,
    // From place 4 down, so the youngest first.
    Youngest,
    // From place 2 down, so from the middle where more than two wait.
    Second,
    // From place 2, 3 or 4 down, as drawn.
    Any,
}

impl Places {
    // Those that overtake.
    const OVERTAKING: [Places; 3] = [Places::Youngest, Places::Second, Places::Any];

    // The place that is tried first on a link, by a random number.
    fn highest(self, x: usize) -> usize {
        match self {
            Places::Oldest => 1,
            Places::Youngest => 4,
            Places::Second => 2,
            Places::Any => 2 + x % 3,
        }
    }
}

// An order of the links, and from which places its picks take.
#[derive(Clone, Copy, PartialEq, Eq)]
pub struct Order {
    pub links: Links,
    pub places: Places,
}

// The order in which picks take the oldest message.
impl From<Links> for Order {
    ghost from_gives = { λ links order. order ≡ record { links = links; places = Oldest } };

    fn from(links: Links) -> Order {
        Order {
            links,
            places: Places::Oldest,
        }
    }
}

impl Order {
    // Its number: that of the links from 0, and twelve more for each of the places before its own.
    pub fn number(self) -> u64
        ensures { result < 48 }
    {
        self.links as u64 + 12 * (self.places as u64)
    }

    // The order that overtakes on the same links, in one of the three ways by a random number; in rounds instead of in pieces.
    pub fn overtaking(links: Links, x: usize) -> Order {
        Order {
            links: if links == Links::Pieces {
                Links::Rounds
            } else {
                links
            },
            places: Places::OVERTAKING[x % 3],
        }
    }

    // An order by running on with a seed, by a random number.
    pub fn shuffled(x: usize) -> Order {
        Order::from(Links::SEEDED[x % 3])
    }

    // Whether picks make every delivery.
    pub fn is_by_picks(self) -> bool {
        !self.links.is_seeded()
            && !matches!(self.links, Links::AtOnce | Links::Pieces | Links::Mixed)
    }
}

// The steps of the ways around the links: primes over 1,024, so that as many turns as there are links meet each once.
const STEPS: [u16; 8] = [1031, 1033, 1039, 1049, 1051, 1061, 1063, 1069];

// The calls past the end: fixed ones, then drawn ones.
const FIXED: usize = 17;

const DRAWN: usize = 6;

// Areas of fewer words are small: 600, and sixteen surplus ones.
const SMALL: usize = 616;

// What stays the same through a run: the list of the links, N and the order; the first link of the row and the step; after about how many
// deliveries the order goes back to the first; for how many tries in vain it keeps to its own choice.
#[derive(Clone, Copy)]
pub struct Way<'a> {
    pub list: &'a [u16],
    pub n: usize,
    pub order: Order,
    first: usize,
    step: u16,
    back: usize,
    patience: usize,
}

// How a run stands: its start; A of 01; D, as the search found it; the sucs and pres that picks delivered, how many deliveries overtook, and how
// many running on with a seed made; the last random number; the link tried last, as its place in the list, and how many places are below the
// one tried there, 0 if no message is known to wait on that link; the receiver of the last delivery by a pick, before it the start, and the
// tries since; after the end, how many calls past it were made.
#[derive(Clone, Copy)]
pub struct Course {
    pub start: usize,
    pub made: u32,
    pub due: u32,
    pub sucs: usize,
    pub pres: usize,
    pub overtaking: u32,
    pub shuffled: u32,
    pub seed: usize,
    pub link: usize,
    pub lower: usize,
    pub receiver: usize,
    pub misses: usize,
    pub past: Option<usize>,
}

// A pick: its numbers and its place; if the order itself picks, from which link.
#[derive(Clone, Copy, PartialEq, Eq)]
pub struct Pick {
    pub from: usize,
    pub to: usize,
    pub place: usize,
    pub own: Option<usize>,
}

// A call: a pick; running on, by how many, without a seed or with one; the reading of a record.
#[derive(Clone, Copy, PartialEq, Eq)]
pub enum Call {
    Pick(Pick),
    RunOn { k: u32 },
    RunShuffled { k: u32, seed: u32 },
    Read { p: usize },
}

// A seed by a random number: any 32 bits but 0.
fn seed_of(x: usize) -> u32 {
    let seed = (x % 65536) as u32 * 65536 + (numbers::next(x) % 65536) as u32;
    seed.max(1)
}

// A pick that is not the order's own.
fn other_pick(from: usize, to: usize, place: usize) -> Call {
    Call::Pick(Pick {
        from,
        to,
        place,
        own: None,
    })
}

// A place by a random number: from 0 to 5, or far beyond; cut to 8 or 32 bits two of these would be 1.
fn any_place(x: usize) -> usize {
    match x % 9 {
        6 => 257,
        7 => 4294967297,
        8 => usize::MAX,
        place => place,
    }
}

// Running on that makes nothing, by a random number: by nothing, without a seed or with one, or with seed 0 by nothing, by a few or by all.
fn other_run(x: usize) -> Call {
    match x % 8 {
        0 => Call::RunShuffled {
            k: 0,
            seed: seed_of(x / 8),
        },
        1 => Call::RunShuffled { k: 0, seed: 0 },
        2 => Call::RunShuffled {
            k: (x / 8 % 4) as u32,
            seed: 0,
        },
        3 => Call::RunShuffled {
            k: u32::MAX,
            seed: 0,
        },
        _ => Call::RunOn { k: 0 },
    }
}

impl<'a> Way<'a> {
    // The way of an order through the links of a list, with N, by a random number.
    pub fn new(list: &'a [u16], n: usize, order: Order, x: usize) -> Way<'a> {
        Way {
            list,
            n,
            order,
            first: x / 8,
            step: STEPS[x % 8],
            back: 1 + list.len() / 32 * 2,
            patience: order.links.patience(list.len()),
        }
    }

    // The sender of link l.
    fn sender(self, l: usize) -> usize {
        entry(self.list, l)
    }

    // The receiver of link l.
    fn receiver(self, l: usize) -> usize {
        entry(self.list, l ^ 1)
    }

    // A link by a random number.
    fn any(self, x: usize) -> usize {
        numbers::below(x, self.list.len())
    }

    // The next link on the way around all links.
    fn around(self, link: usize) -> usize {
        self.any(link % 1024 + usize::from(self.step))
    }

    // The next link out of a process; if there is none, the next link.
    fn out_of(self, process: usize, link: usize) -> usize {
        let mut l = self.around(link);
        for _ in 0..1024usize {
            if self.sender(l) == process {
                return l;
            }
            l = self.around(l);
        }
        l
    }

    // Whether link l is the list's first link, maybe at another place.
    fn is_first(self, l: usize) -> bool {
        self.sender(l) == self.sender(0) && self.receiver(l) == self.receiver(0)
    }

    // The next link but the list's first, which has at most two places.
    fn but_first(self, link: usize) -> usize {
        let mut l = self.around(link);
        for _ in 0..2usize {
            if self.is_first(l) {
                l = self.around(l);
            }
        }
        l
    }

    // The order's own choice.
    fn choice(self, c: &Course) -> usize {
        match self.order.links {
            Links::Random => self.any(c.seed / 64),
            Links::Newest => self.out_of(c.receiver, c.link),
            // The first link of the row now and then, else the next.
            Links::First if numbers::below(c.seed / 64, self.back) == 0 => self.any(self.first),
            Links::First => self.around(c.link),
            Links::Same => c.link,
            // The list's first link, then the others.
            _ if c.made == 0 && c.misses == 0 => 0,
            _ => self.but_first(c.link),
        }
    }

    // The link to try next.
    fn next_link(self, c: &Course) -> usize {
        if c.misses < self.patience {
            self.choice(c)
        } else {
            self.around(c.link)
        }
    }

    // The seed to run on with: now and then the one that stays the same through a run.
    fn next_seed(self, x: usize) -> u32 {
        if x / 64 % 4 == 0 {
            seed_of(self.first)
        } else {
            seed_of(numbers::next(x))
        }
    }

    // The order's own pick from link l.
    fn own_pick(self, l: usize, place: usize) -> Call {
        Call::Pick(Pick {
            from: self.sender(l),
            to: self.receiver(l),
            place,
            own: Some(l),
        })
    }

    // The order's own call.
    fn own_call(self, c: &Course) -> Call {
        let x = c.seed / 64;
        if c.lower > 0 && (c.misses > 0 || x % 2 == 0) {
            return self.own_pick(c.link, c.lower);
        }
        match self.order.links.portion(x) {
            Some(k) if self.order.links.is_seeded() => Call::RunShuffled {
                k,
                seed: self.next_seed(x),
            },
            Some(k) => Call::RunOn { k },
            None => self.own_pick(self.next_link(c), self.order.places.highest(x)),
        }
    }

    // Another call, on any numbers from 0 to N + 1: a pick, a reading, or running on that makes nothing.
    fn other_call(self, c: &Course) -> Call {
        let x = numbers::next(c.seed);
        let y = numbers::next(x);
        let bound = self.n.saturating_add(2);
        let p = numbers::below(x / 3, bound);
        match x % 3 {
            0 => other_pick(p, numbers::below(y, bound), any_place(numbers::next(y))),
            1 => other_run(y),
            _ => Call::Read { p },
        }
    }

    // The calls past the end that come up in every run: running on, picks along the list's first wait, against it and of no link, also
    // at places that no message has, readings of no process, and running on with seed 0 and with another one.
    fn fixed_calls(self, c: &Course) -> [Call; FIXED] {
        let p = self.sender(0);
        let q = self.receiver(0);
        let past = self.n.saturating_add(1);
        [
            Call::RunOn { k: 0 },
            Call::RunOn { k: 5 },
            other_pick(p, q, 1),
            other_pick(q, p, 1),
            other_pick(0, p, 1),
            other_pick(p, past, 1),
            other_pick(p, 129, 1),
            Call::Read { p: 0 },
            Call::Read { p: past },
            other_pick(p, q, 0),
            other_pick(q, p, 5),
            other_pick(0, p, 0),
            other_pick(p, 129, usize::MAX),
            Call::Read { p: 129 },
            Call::RunShuffled { k: 0, seed: 0 },
            Call::RunShuffled { k: 5, seed: 0 },
            Call::RunShuffled {
                k: u32::MAX,
                seed: seed_of(c.seed),
            },
        ]
    }

    // The next call: the order's own, but for one in sixteen before the end, though not on the way down a link. After the end the fixed ones,
    // then every second one the order's own.
    pub fn next_call(self, c: &Course) -> Call {
        match c.past {
            Some(number) if number < FIXED => self.fixed_calls(c)[number],
            Some(_) if c.seed % 2 == 1 => self.other_call(c),
            _ if c.seed % 16 == 5 && c.lower == 0 => self.other_call(c),
            _ => self.own_call(c),
        }
    }

    // Whether so many tries in vain were made that no link can hold a message: each order comes to meet every link in turn, and on a link that
    // holds a message at most three tries are in vain.
    fn is_still(self, c: &Course) -> bool {
        c.misses > 64 && c.misses / 4 > self.list.len()
    }

    // Whether no call is to follow: at the end or when every link is empty, and some calls past the end.
    pub fn is_done(self, c: &Course) -> bool {
        match c.past {
            None => c.made >= c.due || self.is_still(c),
            Some(number) => number >= FIXED + DRAWN,
        }
    }
}

impl Course {
    // Draws the next random number.
    pub fn draw(&mut self) {
        self.seed = numbers::next(self.seed);
    }

    // A call is chosen.
    pub fn choose(&mut self, call: Call) {
        if let Call::Pick(
            Pick {
                own: Some(link),
                ..
            },
        ) = call
        {
            if link != self.link {
                self.lower = 0;
            }
            self.link = link;
        }
        self.past = self.past.map(|number| number.saturating_add(1));
    }

    // At the end, before the calls past it.
    pub fn end(&mut self) {
        self.past = Some(0);
    }

    // Whether the words are compared before and after a call, in an area of so many words: past the end and in small areas always, else now
    // and then.
    pub fn is_watched(&self, words: usize) -> bool {
        let x = numbers::next(self.seed / 2);
        if self.past.is_some() || words < SMALL {
            true
        } else if words < 4000 {
            x % 8 == 0
        } else {
            x % 64 == 0
        }
    }
}
