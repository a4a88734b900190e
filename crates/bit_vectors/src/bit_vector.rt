// Bit vectors in a plain format: lent words and a length, which each call checks before it answers.
//
// `access`, `get_bits`, `get_word64`, `set_bit` and the pushes take constant time; the ranks, the selects and `predecessor1` take time linear in the words.
ghost use Rattle.std.specs.Prelude.{◌≡◌, true, false};
ghost use Rattle.errors.specs.Answer.{leaves, of_bit, of_done, of_optional, of_result};
ghost use Rattle.broadword.specs.Fields.{flag};
ghost use Rattle.bit_vectors.specs.Queries.{access_of, get_bits_of, get_word64_of, rank1_of, num_ones_of, select_bit_of, predecessor1_of, set_bit_of, push_bits_of, from_bit_of};

use bit_words::{
    WORD_LEN, append, bit_word, checked, fill, find_from, last_upto, low_bits, rank_words,
    repeated, window, with_bit, words_for,
};
use errors::Refusal;

// The bit at pos.
pub fn access(words: &[u64], len: usize, pos: usize) -> Result<Option<bool>, Refusal>
    ensures { of_bit result ≡ access_of words.now len pos }
{
    checked(words, len)?;
    if len <= pos {
        return Ok(None);
    }
    let at = pos / WORD_LEN;
    let shift = pos % WORD_LEN;
    Ok(Some((words[at] >> shift) % 2 == 1))
}

// The bits from pos on, as many as width says.
pub fn get_bits(words: &[u64], len: usize, pos: usize, width: usize) -> Result<Option<u64>, Refusal>
    ensures { of_optional result ≡ get_bits_of words.now len pos width }
{
    checked(words, len)?;
    if WORD_LEN < width {
        return Ok(None);
    }
    if len < width {
        return Ok(None);
    }
    if len - width < pos {
        return Ok(None);
    }
    if width == 0 {
        return Ok(Some(0));
    }
    let used = words_for(len);
    Ok(Some(low_bits(window(words, used, pos), width)))
}

// The 64 bits from pos on; those past the used words are 0.
pub fn get_word64(words: &[u64], len: usize, pos: usize) -> Result<Option<u64>, Refusal>
    ensures { of_optional result ≡ get_word64_of words.now len pos }
{
    checked(words, len)?;
    if len <= pos {
        return Ok(None);
    }
    let used = words_for(len);
    Ok(Some(window(words, used, pos)))
}

// The ones below pos.
pub fn rank1(words: &[u64], len: usize, pos: usize) -> Result<Option<usize>, Refusal>
    ensures { of_optional result ≡ rank1_of words.now len pos }
{
    checked(words, len)?;
    if len < pos {
        return Ok(None);
    }
    Ok(Some(rank_words(words, pos)))
}

// All the ones.
pub fn num_ones(words: &[u64], len: usize) -> Result<usize, Refusal>
    ensures { of_result result ≡ num_ones_of words.now len }
{
    checked(words, len)?;
    Ok(rank_words(words, len))
}

// The place of the one, or the zero, that k of its kind stand before.
fn select_over(
    words: &[u64],
    len: usize,
    over_one: bool,
    k: usize,
) -> Result<Option<usize>, Refusal>
    ensures { of_optional result ≡ select_bit_of words.now len over_one k }
{
    checked(words, len)?;
    if len == 0 {
        return Ok(None);
    }
    let used = words_for(len);
    let Some(place) = find_from(words, used, over_one, 0, k) else {
        return Ok(None);
    };
    if place < len {
        Ok(Some(place))
    } else {
        Ok(None)
    }
}

// Both names are the Rust's, over one function.
pub fn select1(words: &[u64], len: usize, k: usize) -> Result<Option<usize>, Refusal>
    ensures { of_optional result ≡ select_bit_of words.now len true k }
{
    select_over(words, len, true, k)
}

pub fn select0(words: &[u64], len: usize, k: usize) -> Result<Option<usize>, Refusal>
    ensures { of_optional result ≡ select_bit_of words.now len false k }
{
    select_over(words, len, false, k)
}

// The last one at or before pos; from the length on the last one of all.
pub fn predecessor1(words: &[u64], len: usize, pos: usize) -> Result<Option<usize>, Refusal>
    ensures { of_optional result ≡ predecessor1_of words.now len pos }
{
    checked(words, len)?;
    if len == 0 { // there is no last place
        return Ok(None);
    }
    Ok(last_upto(words, pos.min(len - 1)))
}

// The used words are written whole: `bit` at every place below len, and 0 past it.
pub fn from_bit(bit: bool, len: usize, words: &mut [u64]) -> Result<(), Refusal>
    ensures { leaves (of_done result) words.new ≡ from_bit_of bit len words.old }
{
    let used = words_for(len);
    if words.len() < used {
        return Err(Refusal::InvalidBits);
    }
    let word = repeated(bit);
    let whole = len / WORD_LEN;
    fill(words, whole, word);
    let left = len % WORD_LEN;
    if left == 0 {
        return Ok(());
    }
    words[whole] = low_bits(word, left);
    Ok(())
}

// The bit at pos is set to `bit`.
pub fn set_bit(words: &mut [u64], len: usize, pos: usize, bit: bool) -> Result<(), Refusal>
    ensures { leaves (of_done result) words.new ≡ set_bit_of words.old len pos bit }
{
    checked(words, len)?;
    if len <= pos {
        return Err(Refusal::OutOfBounds);
    }
    let at = pos / WORD_LEN;
    words[at] = with_bit(words[at], pos % WORD_LEN, bit);
    Ok(())
}

// The lowest bits of `bits`, as many as width says, are pushed at the end.
pub fn push_bits(words: &mut [u64], len: usize, bits: u64, width: usize) -> Result<usize, Refusal>
    ensures { leaves (of_result result) words.new ≡ push_bits_of words.old len bits width }
{
    checked(words, len)?;
    if WORD_LEN < width {
        return Err(Refusal::WideBits);
    }
    if usize::MAX - len < width {
        return Err(Refusal::NoRoom);
    }
    let end = len + width;
    let used = words_for(end);
    if words.len() < used {
        return Err(Refusal::NoRoom);
    }
    if width == 0 {
        return Ok(len);
    }
    append(words, len, low_bits(bits, width), width);
    Ok(end)
}

// One bit is pushed at the end.
pub fn push_bit(words: &mut [u64], len: usize, bit: bool) -> Result<usize, Refusal>
    ensures { leaves (of_result result) words.new ≡ push_bits_of words.old len (flag bit) 1 }
{
    push_bits(words, len, bit_word(bit), 1)
}
