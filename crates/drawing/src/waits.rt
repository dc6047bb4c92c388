// The waits of a graph that is tried.
ghost use Rattle.std.specs.Prelude.{◌≡◌, ◌≤◌, take};

// So many entries has the longest list.
const MOST: usize = 1024;

// A list of pairs, two entries a wait: who waits and for whom. No pair is in it twice.
// Stays: no heap is a rule of the project, so the entries stand in fixed memory with their number beside them.
#[derive(Clone, Copy)]
pub struct Waits {
    entries: [u16; MOST],
    length: usize,
    ghost within: { length ≤ 1024 },
}

impl Waits {
    pub const NONE: Waits = Waits {
        entries: [0; MOST],
        length: 0,
    };

    // The entries.
    pub fn as_slice(&self) -> &[u16]
        ensures { result.now ≡ take self.now.length self.now.entries }
    {
        &self.entries[..self.length]
    }

    // How many waits there are.
    pub(crate) fn count(&self) -> usize {
        self.length / 2
    }

    fn has(&self, wait: [u16; 2]) -> bool {
        self.as_slice()
            .chunks_exact(2)
            .any(|pair| pair == &wait[..])
    }

    // Puts a wait behind the others, unless it is there or the list is full. Numbers past 128 are no process.
    pub(crate) fn put(&mut self, from: usize, to: usize) {
        if from > 128 || to > 128 || self.length > MOST - 2 {
            return;
        }
        let wait = [from as u16, to as u16];
        if !self.has(wait) {
            self.entries[self.length..self.length + 2].copy_from_slice(&wait);
            self.length += 2;
        }
    }
}

// The entry of a list at a place, 0 past its end.
pub fn entry(list: &[u16], at: usize) -> usize {
    list.get(at).map_or(0, |entry| usize::from(*entry))
}
