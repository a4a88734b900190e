// The pending positions of a block: those that its words need are stored, and a flush writes them to the index.
ghost use Rattle.std.specs.Prelude.{◌≡◌, true, false, cond, ℕ, ◌+◌, ◌-◌, ◌*◌, ◌/◌, ◌^◌, ◌≤◌, ◌<◌, min, length, replicate};
ghost use Rattle.broadword.specs.Bits.{bit};
ghost use Rattle.broadword.specs.Places.{select};
ghost use Rattle.bit_words.specs.Vector.{bit_over};
ghost use Rattle.darray_positions.specs.Scan.{Position, Ahead, Inside, last_in_block};
ghost use Rattle.darray.specs.Pending.{Sampled, Loadable, Loaded, LanesRise, block_wide, block_spill, block_lane, block_lane_word, put, flushed, Flushable, lanes_at, over_at, emptied, Decides, Reads, Matches, Comparing, Compares};

use crate::inner::Sizes;
use bit_words::{WORD_LEN, word_over};
use broadword::lsb;
use darray_positions::scan::{
    BLOCK_LEN, Cursor, Hit, SUBBLOCK_LEN, block_size, cursor_at, find_near, is_far, is_wide,
};

// Positions to a word of distances.
const LANES_LEN: usize = 4 * SUBBLOCK_LEN;

// The pending positions, up to 1,024, and how many they are: they travel as one value (document 01).
#[derive(Drop)]
pub struct Pending {
    pub positions: [u64; 1024],
    pub count: usize,
}

// The word without its lowest one.
fn without_lowest(w: u64) -> u64
    requires { w ≡ 0 → ⊥ }
    ensures { (k : ℕ) → select (bit result) 64 k ≡ select (bit w) 64 (k + 1) }
{
    w & (w - 1)
}

// Stores the `size` positions from the number k on, the first of which stands at `first`.
fn fill(a: &mut [u64; 1024], words: &[u64], over_one: bool, first: usize, k: usize, size: usize)
    requires { (length a.old ≡ 1024) × (size ≤ 1024) × (0 < size) × Position (bit_over over_one words.now) k first × Inside (bit_over over_one words.now) (length words.now) (k + (size - 1)) }
    ensures { Sampled (bit_over over_one words.now) k size true a.new }
{
    let shift = first % WORD_LEN;
    let mut word = first / WORD_LEN;
    let mut left = (word_over(words, word, over_one) >> shift) << shift;
    let mut c: usize = 0;
    while c < size { // no `for`: c moves on only where the word has a one left
        match lsb(left) {
            Some(bit) => {
                a[c] = (word * WORD_LEN + bit) as u64;
                left = without_lowest(left);
                c += 1;
            }
            None => {
                word += 1;
                left = word_over(words, word, over_one);
            }
        }
    }
}

// Stores every 32nd of the `size` positions from the number k on, and the last; a cursor at the word of the last comes back.
fn sample(
    a: &mut [u64; 1024],
    words: &[u64],
    over_one: bool,
    from: Cursor,
    k: usize,
    size: usize,
) -> Cursor
    requires { (length a.old ≡ 1024) × (0 < size) × (size ≤ 1024) × Ahead (bit_over over_one words.now) from k × Inside (bit_over over_one words.now) (length words.now) (k + (size - 1)) }
    ensures { Sampled (bit_over over_one words.now) k size false a.new × Ahead (bit_over over_one words.now) result (k + (size - 1)) }
{
    let mut at = from;
    for i in (0..size).step_by(SUBBLOCK_LEN) {
        let h = find_near(words, over_one, at, k + i);
        a[i] = h.at;
        at = h.cursor;
    }
    let last = size - 1;
    let h = find_near(words, over_one, at, k + last);
    a[last] = h.at;
    h.cursor
}

// Stores those positions of a block that its words need, where its end is near: every 32nd, and all of them if it overflows after all. Its first
// position is h; a cursor at the word of the last comes back.
fn load_near(
    a: &mut [u64; 1024],
    words: &[u64],
    over_one: bool,
    h: Hit,
    k: usize,
    size: usize,
) -> Cursor
    requires { Loadable (bit_over over_one words.now) (length words.now) k size h a.old }
    ensures { Loaded (bit_over over_one words.now) k size a.new result }
{
    let from = h.cursor;
    let next = sample(&mut *a, words, over_one, from, k, size);
    if is_wide(a[0], a[size - 1]) {
        fill(a, words, over_one, h.at as usize, k, size);
    }
    next
}

// The same wherever its end is: where that is far off, the block overflows, or nearly, and all its positions are stored one after the other.
fn load_from(
    a: &mut [u64; 1024],
    words: &[u64],
    over_one: bool,
    h: Hit,
    k: usize,
    size: usize,
) -> Cursor
    requires { Loadable (bit_over over_one words.now) (length words.now) k size h a.old }
    ensures { Loaded (bit_over over_one words.now) k size a.new result }
{
    let last = size - 1;
    if is_far(words, over_one, h.cursor, k + last) {
        fill(&mut *a, words, over_one, h.at as usize, k, size);
        return cursor_at(words, over_one, k + last, a[last] as usize);
    }
    load_near(a, words, over_one, h, k, size)
}

// The first position, or -(over + 1) in two's complement.
fn entry(first: u64, wide: bool, over: usize) -> u64
    ensures { result ≡ cond wide (2 ^ 64 - (over + 1)) first }
{
    if wide { u64::MAX - over as u64 } else { first }
}

impl Pending {
    // None is pending.
    pub fn empty() -> Pending
        ensures { (result.positions ≡ replicate 1024 0) × (result.count ≡ 0) }
    {
        Pending {
            positions: [0u64; 1024],
            count: 0,
        }
    }

    // The block with the number `block` of n positions, loaded so; a cursor at the word of its last comes back.
    pub fn load(
        &mut self,
        words: &[u64],
        over_one: bool,
        n: usize,
        block: usize,
        from: Cursor,
    ) -> Cursor
        requires { (length self.old.positions ≡ 1024) × Ahead (bit_over over_one words.now) from (1024 * block) × Inside (bit_over over_one words.now) (length words.now) (last_in_block n block) × (1024 * block < n) }
        ensures { Loaded (bit_over over_one words.now) (1024 * block) (min 1024 (n - 1024 * block)) self.new.positions result × (self.new.count ≡ min 1024 (n - 1024 * block)) }
    {
        let k = BLOCK_LEN * block;
        let h = find_near(words, over_one, from, k);
        let size = block_size(n, block);
        self.count = size;
        load_from(&mut self.positions, words, over_one, h, k, size)
    }

    // Whether the block overflows.
    fn overflows(&self) -> bool
        requires { (0 < self.now.count) × (self.now.count ≤ 1024) × LanesRise self.now.positions self.now.count }
        ensures { result ≡ block_wide self.now.positions self.now.count }
    {
        is_wide(self.positions[0], self.positions[self.count - 1])
    }

    // How many of its positions go to the overflow.
    pub fn spill(&self) -> usize
        requires { (0 < self.now.count) × (self.now.count ≤ 1024) × LanesRise self.now.positions self.now.count }
        ensures { result ≡ block_spill self.now.positions self.now.count }
    {
        if self.overflows() { self.count } else { 0 }
    }

    // The distance of the position 32 i from the first: 65,535 in a block that overflows, and 0 where there is no such position.
    fn lane(&self, wide: bool, i: usize) -> u64
        requires { (self.now.count ≤ 1024) × (i < 64) × LanesRise self.now.positions self.now.count × (wide ≡ block_wide self.now.positions self.now.count) }
        ensures { (result ≡ block_lane self.now.positions self.now.count i) × (result < 65536) }
    {
        let k = SUBBLOCK_LEN * i;
        if self.count <= k {
            return 0;
        }
        if wide {
            return 65535;
        }
        self.positions[k] - self.positions[0]
    }

    // Four of them, from the low end.
    fn lane_word(&self, wide: bool, t: usize) -> u64
        requires { (self.now.count ≤ 1024) × (t < 8) × LanesRise self.now.positions self.now.count × (wide ≡ block_wide self.now.positions self.now.count) }
        ensures { result ≡ block_lane_word self.now.positions self.now.count t }
    {
        let i = 4 * t;
        let low = self.lane(wide, i) + self.lane(wide, i + 1) * 0x1_0000;
        let high = self.lane(wide, i + 2) + self.lane(wide, i + 3) * 0x1_0000;
        low + high * 0x1_0000_0000
    }

    // Writes the distances.
    fn put_lanes(&self, wide: bool, out: &mut [u64], at: usize)
        requires { (self.now.count ≤ 1024) × LanesRise self.now.positions self.now.count × (wide ≡ block_wide self.now.positions self.now.count) × (at + (self.now.count + 127) / 128 ≤ length out.old) }
        ensures { out.new ≡ put out.old at (block_lane_word self.now.positions self.now.count) ((self.now.count + 127) / 128) }
    {
        for t in 0..self.count.div_ceil(LANES_LEN) {
            out[at + t] = self.lane_word(wide, t);
        }
    }

    // Writes the block to the index whose sizes are s: its entry, its distances, and where it overflows its positions, with `over` overflow positions
    // before them, and empties it. How many of its positions went to the overflow comes back.
    pub fn flush(&mut self, out: &mut [u64], s: Sizes, block: usize, over: usize) -> usize
        requires { (s.lanes + 3 < 2 ^ 64) × Flushable self.old.positions self.old.count block (lanes_at s block) over (over_at s over) (length out.old) }
        ensures { (result ≡ block_spill self.old.positions self.old.count) × (self.new ≡ emptied self.old) × (out.new ≡ flushed self.old.positions self.old.count block (lanes_at s block) over (over_at s over) out.old) }
    {
        let wide = self.overflows();
        out[block] = entry(self.positions[0], wide, over);
        self.put_lanes(wide, &mut *out, s.entries + 8 * block);
        let more = self.spill();
        let at = s.entries + s.lanes.div_ceil(4) + over;
        out[at..at + more].copy_from_slice(&self.positions[..more]);
        self.count = 0;
        more
    }

    // Whether the words at the place `at` are the distances.
    fn lanes_match(&self, wide: bool, index: &[u64], at: usize) -> bool
        requires { (self.now.count ≤ 1024) × LanesRise self.now.positions self.now.count × (wide ≡ block_wide self.now.positions self.now.count) × (at + (self.now.count + 127) / 128 ≤ length index.now) }
        ensures { Decides result (Reads index.now at (block_lane_word self.now.positions self.now.count) ((self.now.count + 127) / 128)) }
    {
        for t in 0..self.count.div_ceil(LANES_LEN) {
            if index[at + t] != self.lane_word(wide, t) {
                return false;
            }
        }
        true
    }

    // Whether the index has the words that a flush of the block would write.
    fn block_matches(&self, index: &[u64], s: Sizes, block: usize, over: usize) -> bool
        requires { (s.lanes + 3 < 2 ^ 64) × Flushable self.now.positions self.now.count block (lanes_at s block) over (over_at s over) (length index.now) }
        ensures { Decides result (Matches self.now.positions self.now.count block (lanes_at s block) over (over_at s over) index.now) }
    {
        let wide = self.overflows();
        if index[block] != entry(self.positions[0], wide, over) {
            return false;
        }
        if !self.lanes_match(wide, index, s.entries + 8 * block) {
            return false;
        }
        let more = self.spill();
        let at = s.entries + s.lanes.div_ceil(4) + over;
        index[at..at + more] == self.positions[..more]
    }

    // Compares the words of a block, with `over` overflow positions before it, with those of the index.
    pub fn compare(&self, index: &[u64], s: Sizes, block: usize, over: usize) -> Option<usize>
        requires { Comparing self.now.positions self.now.count s block over (length index.now) }
        ensures { Compares self.now.positions self.now.count s block over index.now result }
    {
        let more = self.spill();
        if s.overflow - over < more {
            return None;
        }
        self.block_matches(index, s, block, over).then_some(more)
    }
}
