// Broadword tools: products that wrap, the number of ones of a word, and the places where they stand.
//
// All run in constant time. `select_in_word_within` demands that there is such a one. The functions that are not public demand what they say.
#![tactic(auto)]

ghost use Rattle.std.specs.Prelude.{◌≡◌, ℕ, ◌*◌, ◌%◌, ◌^◌, ◌<◌, leb, Some, unwrap_or};
ghost use Rattle.broadword.specs.Bits.{bit, ones};
ghost use Rattle.broadword.specs.Fields.{digit, word, flag, LowBytes};
ghost use Rattle.broadword.specs.Places.{last, select, SelectInByte, Debruijn64};

mod tables;

use tables::{DEBRUIJN64_MAPPING, SELECT_IN_BYTE};

pub const ONES_STEP_4: u64 = 0x1111_1111_1111_1111;

pub const ONES_STEP_8: u64 = 0x0101_0101_0101_0101;

pub const ONES_STEP_9: u64 = 0x0040_2010_0804_0201;

pub const MSBS_STEP_8: u64 = 0x80 * ONES_STEP_8;

pub const MSBS_STEP_9: u64 = 0x100 * ONES_STEP_9;

const INV_COUNT_STEP_9: u64 = 0x0040_4030_2014_0C07;

const DEBRUIJN64: u64 = 0x07ED_D5E5_9A4E_28C2;

// a × b modulo 2^64.
pub fn wrapping_mul(a: u64, b: u64) -> u64
    ensures { result ≡ (a * b) % 2 ^ 64 }
{
    a.wrapping_mul(b)
}

// In each byte, whether that of x is at most that of y. It compares only bytes below 128.
fn leq_step_8(x: u64, y: u64) -> u64
    requires { LowBytes x × LowBytes y }
    ensures { result ≡ word 8 (λ i. flag (leb (digit 8 x i) (digit 8 y i))) 8 }
{
    ((((y | MSBS_STEP_8) - (x & !MSBS_STEP_8)) ^ (x ^ y)) & MSBS_STEP_8) >> 7
}

// The same, and it compares only bytes below 128 too. (Both stay, each a function of the Rust that the port is held to: docs/DECISIONS.md.)
fn uleq_step_8(x: u64, y: u64) -> u64
    requires { LowBytes x × LowBytes y }
    ensures { result ≡ word 8 (λ i. flag (leb (digit 8 x i) (digit 8 y i))) 8 }
{
    (((((y | MSBS_STEP_8) - (x & !MSBS_STEP_8)) ^ (x ^ y)) ^ (x & !y)) & MSBS_STEP_8) >> 7
}

// In each of the seven fields of nine bits, whether that of x is at most that of y.
fn uleq_step_9(x: u64, y: u64) -> u64
    requires { (x < 2 ^ 63) × (y < 2 ^ 63) }
    ensures { result ≡ word 9 (λ i. flag (leb (digit 9 x i) (digit 9 y i))) 7 }
{
    (((((y | MSBS_STEP_9) - (x & !MSBS_STEP_9)) | (x ^ y)) ^ (x & !y)) & MSBS_STEP_9) >> 8
}

// In each byte, the number of its ones.
fn byte_counts(x: u64) -> u64
    ensures { result ≡ word 8 (λ i. ones (digit 8 x i) 8) 8 }
{
    let a = x - ((x & (0xa * ONES_STEP_4)) >> 1);
    let b = (a & (3 * ONES_STEP_4)) + ((a >> 2) & (3 * ONES_STEP_4));
    (b + (b >> 4)) & (0x0f * ONES_STEP_8)
}

// The number of ones.
pub fn popcount(x: u64) -> usize
    ensures { result ≡ ones x 64 }
{
    u64::count_ones(x) as usize
}

// The table by which `select_in_word` finds a place in a byte.
pub fn select_in_byte_table() -> [u8; 2048]
    ensures { SelectInByte result }
{
    SELECT_IN_BYTE
}

// The place in the byte b of the one that r ones stand before, and 8 where there is none.
fn select_in_byte(b: usize, r: usize) -> usize
    requires { (b < 256) × (r < 8) }
    ensures { result ≡ unwrap_or (select (bit b) 8 r) 8 }
{
    SELECT_IN_BYTE[b | (r << 8)] as usize
}

// The place of the one that k ones stand before, in a word that has more than k.
pub fn select_in_word_within(x: u64, k: usize) -> usize
    requires { k < ones x 64 }
    ensures { select (bit x) 64 k ≡ Some result }
{
    let byte_sums = wrapping_mul(ONES_STEP_8, byte_counts(x));
    let k_step_8 = k as u64 * ONES_STEP_8;
    let geq_k_step_8 = ((k_step_8 | MSBS_STEP_8) - byte_sums) & MSBS_STEP_8;
    let place = ((wrapping_mul(geq_k_step_8 >> 7, ONES_STEP_8) >> 53) & !0x7) as usize;
    let byte_rank = k - (((byte_sums << 8) >> place) & 0xff) as usize;
    place + select_in_byte((x >> place) as usize & 0xff, byte_rank)
}

// The place of the one that k ones stand before.
pub fn select_in_word(x: u64, k: usize) -> Option<usize>
    ensures { result ≡ select (bit x) 64 k }
{
    if popcount(x) <= k {
        return None;
    }
    Some(select_in_word_within(x, k))
}

// The table by which `lsb` finds the place of a bit.
pub fn debruijn64_table() -> [u8; 64]
    ensures { Debruijn64 result }
{
    DEBRUIJN64_MAPPING
}

// The place of the one bit of x that is set: each power of two shifts another six bits of DEBRUIJN64 to its top.
fn bit_position(x: u64) -> usize
    requires { (k : ℕ) × (k < 64) × (x ≡ 2 ^ k) }
    ensures { (k : ℕ) → k < 64 → x ≡ 2 ^ k → result ≡ k }
{
    DEBRUIJN64_MAPPING[(wrapping_mul(DEBRUIJN64, x) >> 58) as usize] as usize
}

// The place of the lowest one. (By the table and not by `trailing_zeros`: document 01 has it so.)
pub fn lsb(x: u64) -> Option<usize>
    ensures { result ≡ select (bit x) 64 0 }
{
    if x == 0 {
        None
    } else {
        Some(bit_position(x & wrapping_mul(u64::MAX, x)))
    }
}

// The place of the highest one.
pub fn msb(x: u64) -> Option<usize>
    ensures { result ≡ last (bit x) 64 }
{
    if x == 0 {
        return None; // no highest one
    }
    let zeros = u64::leading_zeros(x);
    let place = 63 - zeros;
    Some(place as usize)
}
