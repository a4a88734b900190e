// Select through the index, in constant time. These functions are inner: each demands the index of the bits that it is lent and how many positions
// the index has; `select_within` also that there is such a position.
ghost use Rattle.std.specs.Prelude.{◌≡◌, ◌+◌, ◌*◌, ◌/◌, ◌%◌, ◌^◌, ◌<◌, length, get_or, Some};
ghost use Rattle.std.specs.Int.Bits.{bit_and};
ghost use Rattle.broadword.specs.Places.{select as select_bit};
ghost use Rattle.bit_words.specs.Vector.{bit_over};
ghost use Rattle.darray.specs.Select.{Indexed, entry_of};

use bit_words::{find_within, words_for};
use darray_positions::scan::{BLOCK_LEN, SUBBLOCK_LEN};

// A block's entry: its first position, or where its overflow positions begin. (Two places, so no Option: `entry_of` names the cases.)
#[derive(Clone, Copy)]
pub enum Entry {
    First(usize),
    Overflow(usize),
}

// A negative entry e points at the overflow place -e - 1.
fn read_entry(w: u64) -> Entry
    requires { w ≡ 2 ^ 63 → ⊥ }
    ensures { result ≡ entry_of w }
{
    let e = w.cast_signed();
    if e < 0 {
        Entry::Overflow((-e - 1) as usize)
    } else {
        Entry::First(e as usize)
    }
}

// The lane of the position 32 × i, its distance from the first of its block.
fn distance(index: &[u64], entries: usize, i: usize) -> usize
    requires { entries + i / 4 < length index.now }
    ensures { result ≡ bit_and (get_or index.now (entries + i / 4) 0 / 2 ^ (16 * (i % 4))) 0xffff }
{
    let word = index[entries + i / 4];
    ((word >> (16 * (i % 4))) & 0xffff) as usize
}

// The place of the one, or the zero, that k of its kind stand before, of which there are more.
pub fn select_within(
    words: &[u64],
    len: usize,
    over_one: bool,
    index: &[u64],
    positions: usize,
    k: usize,
) -> usize
    requires { Indexed words.now len over_one index.now positions × (k < positions) }
    ensures { select_bit (bit_over over_one words.now) len k ≡ Some result }
{
    let entries = positions.div_ceil(BLOCK_LEN);
    let block = k / BLOCK_LEN;
    match read_entry(index[block]) {
        Entry::Overflow(first) => {
            let lane_words = positions.div_ceil(SUBBLOCK_LEN).div_ceil(4);
            let at = entries + lane_words + first + k % BLOCK_LEN;
            index[at] as usize
        }
        Entry::First(first) => {
            let start = first + distance(index, entries, k / SUBBLOCK_LEN);
            let rest = k % SUBBLOCK_LEN;
            if rest == 0 {
                return start;
            }
            find_within(words, words_for(len), over_one, start, rest)
        }
    }
}

// The place of the one, or the zero, that k of its kind stand before.
pub fn select(
    words: &[u64],
    len: usize,
    over_one: bool,
    index: &[u64],
    positions: usize,
    k: usize,
) -> Option<usize>
    requires { Indexed words.now len over_one index.now positions }
    ensures { result ≡ select_bit (bit_over over_one words.now) len k }
{
    if positions <= k {
        return None;
    }
    Some(select_within(words, len, over_one, index, positions, k))
}
