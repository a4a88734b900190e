// The questions of a vector. Each is one of the record's over the opened image; the inner forms take an opened vector.
ghost use Rattle.std.specs.Prelude.{◌≡◌};
ghost use Rattle.errors.specs.Answer.{of_bit, of_optional};
ghost use Rattle.elias_fano.specs.Accept.{times};
ghost use Rattle.sarray.specs.Ask.{Access, Rank1, Select1, Predecessor1, Successor1, sparse_ask, sparse_query};
ghost use Rattle.sarray.specs.Opened.{OpenVector};

use crate::vector::{SArray, open};
use elias_fano::image::value_of;
use elias_fano::opened::Image;
use elias_fano_queries::neighbours::{predecessor_opened, successor_opened};
use elias_fano_queries::rank::rank_within;
use elias_fano_walk::search::binsearch_opened;
use errors::Refusal;

// A value of the record as a place.
fn place_of(v: Result<Option<u64>, Refusal>) -> Result<Option<usize>, Refusal>
    ensures { of_optional result ≡ of_optional v }
{
    Ok(v?.map(|x| x as usize))
}

// The bit at a place, of an opened vector: whether the search finds it.
pub fn access_opened(image: &[u64], v: SArray, pos: usize) -> Result<Option<bool>, Refusal>
    requires { OpenVector image.now v }
    ensures { of_bit result ≡ sparse_ask v.num_bits v.has_rank (times image.now) (Access pos) }
{
    if pos >= v.num_bits {
        return Ok(None);
    }
    if v.num_ones == 0 {
        return Ok(Some(false));
    }
    let record = Image {
        words: image,
        parts: v.parts,
    };
    let found = binsearch_opened(&record, pos as u64)?;
    Ok(Some(found.is_some()))
}

// How many ones stand before a place, of an opened vector.
pub fn rank1_opened(image: &[u64], v: SArray, pos: usize) -> Result<Option<usize>, Refusal>
    requires { OpenVector image.now v }
    ensures { of_optional result ≡ sparse_ask v.num_bits v.has_rank (times image.now) (Rank1 pos) }
{
    if !v.has_rank {
        return Err(Refusal::NoRankIndex);
    }
    if pos > v.num_bits {
        return Ok(None);
    }
    if v.num_ones == 0 {
        return Ok(Some(0));
    }
    if pos == v.num_bits {
        return Ok(Some(v.num_ones));
    }
    let record = Image {
        words: image,
        parts: v.parts,
    };
    Ok(Some(rank_within(&record, pos as u64)))
}

// The place of the one with the number k, of an opened vector.
pub fn select1_opened(image: &[u64], v: SArray, k: usize) -> Result<Option<usize>, Refusal>
    requires { OpenVector image.now v }
    ensures { of_optional result ≡ sparse_ask v.num_bits v.has_rank (times image.now) (Select1 k) }
{
    if k >= v.num_ones {
        return Ok(None);
    }
    let record = Image {
        words: image,
        parts: v.parts,
    };
    Ok(Some(value_of(&record, k) as usize))
}

// The last one at a place or before it, of an opened vector.
pub fn predecessor1_opened(image: &[u64], v: SArray, pos: usize) -> Result<Option<usize>, Refusal>
    requires { OpenVector image.now v }
    ensures { of_optional result ≡ sparse_ask v.num_bits v.has_rank (times image.now) (Predecessor1 pos) }
{
    if !v.has_rank {
        return Err(Refusal::NoRankIndex);
    }
    // the record has a predecessor from its universe on
    if v.num_bits <= pos {
        return Ok(None);
    }
    if v.num_ones == 0 {
        return Ok(None);
    }
    let record = Image {
        words: image,
        parts: v.parts,
    };
    place_of(predecessor_opened(&record, pos as u64))
}

// The first one at a place or after it, of an opened vector.
pub fn successor1_opened(image: &[u64], v: SArray, pos: usize) -> Result<Option<usize>, Refusal>
    requires { OpenVector image.now v }
    ensures { of_optional result ≡ sparse_ask v.num_bits v.has_rank (times image.now) (Successor1 pos) }
{
    if !v.has_rank {
        return Err(Refusal::NoRankIndex);
    }
    if pos >= v.num_bits {
        return Ok(None);
    }
    if v.num_ones == 0 {
        return Ok(None);
    }
    let record = Image {
        words: image,
        parts: v.parts,
    };
    place_of(successor_opened(&record, pos as u64))
}

// The bit at a place: none from the length on.
pub fn access(image: &[u64], len: usize, rank: bool, pos: usize) -> Result<Option<bool>, Refusal>
    ensures { of_bit result ≡ sparse_query len rank image.now (Access pos) }
{
    let v = open(image, len, rank)?;
    access_opened(image, v, pos)
}

// How many ones stand before a place: none past the length.
pub fn rank1(image: &[u64], len: usize, rank: bool, pos: usize) -> Result<Option<usize>, Refusal>
    ensures { of_optional result ≡ sparse_query len rank image.now (Rank1 pos) }
{
    let v = open(image, len, rank)?;
    rank1_opened(image, v, pos)
}

// The place of the one with the number k.
pub fn select1(image: &[u64], len: usize, rank: bool, k: usize) -> Result<Option<usize>, Refusal>
    ensures { of_optional result ≡ sparse_query len rank image.now (Select1 k) }
{
    let v = open(image, len, rank)?;
    select1_opened(image, v, k)
}

// The last one at a place or before it: none from the length on.
pub fn predecessor1(
    image: &[u64],
    len: usize,
    rank: bool,
    pos: usize,
) -> Result<Option<usize>, Refusal>
    ensures { of_optional result ≡ sparse_query len rank image.now (Predecessor1 pos) }
{
    let v = open(image, len, rank)?;
    predecessor1_opened(image, v, pos)
}

// The first one at a place or after it: none from the length on.
pub fn successor1(
    image: &[u64],
    len: usize,
    rank: bool,
    pos: usize,
) -> Result<Option<usize>, Refusal>
    ensures { of_optional result ≡ sparse_query len rank image.now (Successor1 pos) }
{
    let v = open(image, len, rank)?;
    successor1_opened(image, v, pos)
}
