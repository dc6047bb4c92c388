// A plain search of a wait graph, written apart from the library that it judges: its own reader of the waits in a table's bytes, its own
// reachability, and the numbers of "The end of a check" (01; escape: 02, N1; those who wait for nobody: 02, N3) and the verdict by each
// edition (02, N4) found from them. It stands on no other crate and refuses nothing: past the bytes, or for numbers that are no process, it
// finds nothing. It promises only that it is safe and ends.
#![tactic(auto)]

// 16 bits, low byte first, or 0 past the bytes.
fn half_word(table: &[u8], at: usize) -> u16 {
    match table.get(at..) {
        Some([low, high, ..]) => u16::from_le_bytes([*low, *high]),
        _ => 0,
    }
}

// N of a table.
pub fn processes(table: &[u8]) -> u16 {
    half_word(table, 0)
}

// M of a table.
pub fn waits(table: &[u8]) -> u16 {
    half_word(table, 2)
}

// Where the record of arc k + 1 begins: after N, M and the N process records.
fn record_at(table: &[u8], k: usize) -> usize {
    let first = 4 + 4 * usize::from(processes(table));
    k.saturating_mul(8).saturating_add(first)
}

// Who waits by arc k + 1.
pub fn waiting(table: &[u8], k: usize) -> u16 {
    half_word(table, record_at(table, k))
}

// For whom.
pub fn awaited(table: &[u8], k: usize) -> u16 {
    half_word(table, record_at(table, k).saturating_add(2))
}

// The editions of the verdict (02, N4).
#[derive(Clone, Copy, PartialEq, Eq)]
pub enum Edition {
    First = 1,
    Second = 2,
}

// What the search finds of the numbers 0 to 128.
#[derive(Clone, Copy)]
pub struct Found {
    // For whom each waits.
    waits: [[bool; 129]; 129],
    // Who is reachable from the start.
    after: [bool; 129],
    // Who reaches it.
    before: [bool; 129],
}

// Everyone who is met from s on, itself included, if q is met from p where the test holds of p and q. Each sweep but the last meets someone.
fn met_from<F: Fn(usize, usize) -> bool>(s: usize, is_next: F) -> [bool; 129]
    requires { F.IsAlwaysCallable is_next }
{
    let mut met = [false; 129];
    if s < 129 {
        met[s] = true;
    }
    for _ in 0..129usize {
        let mut grew = false;
        // Stays: the array is read at p and written at q, so it is not gone over by itself.
        for p in 0..129 {
            for q in 0..129 {
                if met[p] && !met[q] && is_next(p, q) {
                    met[q] = true;
                    grew = true;
                }
            }
        }
        if !grew {
            break;
        }
    }
    met
}

impl Found {
    pub const NOTHING: Found = Found {
        waits: [[false; 129]; 129],
        after: [false; 129],
        before: [false; 129],
    };

    // Marks every wait of the table.
    pub fn mark_waits(&mut self, table: &[u8]) {
        for k in 0..usize::from(waits(table)) {
            let p = usize::from(waiting(table, k));
            let q = usize::from(awaited(table, k));
            if p < 129 && q < 129 {
                self.waits[p][q] = true;
            }
        }
    }

    // Meets everyone that s reaches, and everyone that reaches s.
    pub fn spread(&mut self, s: usize) {
        let after = met_from(s, |p, q| self.is_wait(p, q));
        let before = met_from(s, |p, q| self.is_wait(q, p));
        self.after = after;
        self.before = before;
    }

    // Whether p waits for q.
    pub fn is_wait(&self, p: usize, q: usize) -> bool {
        p < 129 && q < 129 && self.waits[p][q]
    }

    // "Two processes are neighbours if an arc joins them either way"
    pub fn is_link(&self, p: usize, q: usize) -> bool {
        self.is_wait(p, q) || self.is_wait(q, p)
    }

    // Whether p is reachable from the start.
    pub fn is_after(&self, p: usize) -> bool {
        p < 129 && self.after[p]
    }

    // Whether p reaches it.
    pub fn is_before(&self, p: usize) -> bool {
        p < 129 && self.before[p]
    }

    // Whether p is reachable from the start and does not reach it.
    pub fn is_outsider(&self, p: usize) -> bool {
        self.is_after(p) && !self.is_before(p)
    }

    // The number of waits by those who are reachable.
    pub fn waits_by(&self) -> usize {
        self.waits
            .iter()
            .zip(&self.after)
            .filter(|(_, after)| **after)
            .flat_map(|(row, _)| row)
            .filter(|wait| **wait)
            .count()
    }

    // The number of waits for those who reach the start.
    pub fn waits_for(&self) -> usize {
        self.waits
            .iter()
            .flat_map(|row| row.iter().zip(&self.before))
            .filter(|(wait, before)| **wait && **before)
            .count()
    }

    // How many are reachable and do not reach the start.
    pub fn outsiders(&self) -> usize {
        (0..129).filter(|p| self.is_outsider(*p)).count()
    }

    // The lowest-numbered process that is reachable and does not reach the start (02, N1).
    pub fn lowest_outsider(&self) -> Option<u32> {
        (1..129u32).find(|p| self.is_outsider(*p as usize))
    }

    // Whether p waits for nobody.
    fn is_idle(&self, p: usize) -> bool {
        !(1..129).any(|q| self.is_wait(p, q))
    }

    // How many are reachable from the start, itself included, and wait for nobody (02, N3).
    pub fn idlers(&self) -> usize {
        (1..129)
            .filter(|p| self.is_after(*p) && self.is_idle(*p))
            .count()
    }

    // Whether the start is in a knot: by the first edition "exactly if all processes reachable from the start reach it"; by the second "in
    // addition, at least one process must be reachable by one arc or more, so a loop is enough" (02, N4).
    pub fn is_knot(&self, edition: Edition) -> bool {
        self.outsiders() == 0 && (edition == Edition::First || self.waits_by() > 0)
    }
}
