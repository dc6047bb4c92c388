// The words of an area: filled before a start, and watched for change.

// What every word holds before a start.
const MARK: i32 = 20000003;

// Digests are below 2 to the 48.
const BOUND: u64 = 281474976710656;

// Fills every word with it.
pub fn fill(area: &mut [i32]) {
    area.fill(MARK);
}

// Whether every word from that place on holds the mark.
pub fn is_marked(area: &[i32], from: usize) -> bool {
    area.iter().skip(from).all(|word| *word == MARK)
}

// A word mixed into a digest. The factor is odd, so that a change of one word always shows.
fn mix(digest: u64, word: i32) -> u64 {
    (digest % BOUND * 31 + u64::from(word.cast_unsigned())) % BOUND
}

// A digest of all words, in their order.
pub fn digest(area: &[i32]) -> u64 {
    area.iter().fold(1, |digest, word| mix(digest, *word))
}
