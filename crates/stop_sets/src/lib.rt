// Sets of stop numbers, as bits of words, and whether a stop occurs twice.
// It knows no file, and refuses nothing.

#![tactic(auto)]

ghost use Rattle.std.specs.Prelude.{◌≡◌, ℕ, ◌<◌, List, length, get_or};
ghost use Rattle.stop_sets.specs.Stops.{any_twice};
ghost use Rattle.stop_sets.specs.Words.{has, with};

mod words;

// What stops are read from, one at a time.
pub trait StopList {
    ghost stops: { Self → List ℕ };

    fn count(&self) -> usize
        ensures { result ≡ length (stops self.now) };

    // The stop at place k; past the end any number.
    fn stop(&self, k: usize) -> u16
        ensures { k < length (stops self.now) → result ≡ get_or (stops self.now) k 0 };
}

impl StopList for &[u16] {
    ghost stops = { λ list. list.now };

    fn count(&self) -> usize {
        self.len()
    }

    fn stop(&self, k: usize) -> u16 {
        if k < self.len() { self[k] } else { 0 }
    }
}

// Adds a stop, and answers whether the set had it. A stop past the words is not added, and no set has it.
pub fn add(words: &mut [u32], stop: u32) -> bool
    ensures { (result ≡ has words.old stop) × (words.new ≡ with words.old stop) }
{
    let i = (stop / 32) as usize;
    let k = stop % 32;
    if i < words.len() {
        let word = words[i];
        if words::bit_set(word, k) {
            return true;
        }
        words[i] = word + (1 << k);
    }
    false
}

// Whether a stop occurs twice: from the last to the first, each goes into a set of those that were seen.
// The set has room for each 16-bit stop, and takes 8 KiB of stack.
pub fn any_twice_of<S: StopList>(stops: &S) -> bool
    ensures { result ≡ any_twice (S.stops stops.now) }
{
    let mut words = [0u32; 2048];
    for k in (0..stops.count()).rev() {
        if add(&mut words, u32::from(stops.stop(k))) {
            return true;
        }
    }
    false
}

// Whether a stop occurs twice in a list.
pub fn any_twice(stops: &[u16]) -> bool
    ensures { result ≡ any_twice stops.now }
{
    any_twice_of(&stops)
}
