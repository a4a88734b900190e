// The sparse bit vector: one question a call, and questions by the many. The vector is opened first, and 7 decided by it, in time linear in its words.
ghost use Rattle.std.specs.Prelude.{◌≡◌, ℕ};
ghost use Rattle.elias_fano.specs.Accept.{times};
ghost use Rattle.sarray.specs.Ask.{Access, Rank1, Select1, Predecessor1, Successor1, SparseQuestion, sparse_ask, sparse_query};
ghost use Rattle.sarray.specs.Build.{sparse_from_bits};
ghost use Rattle.sarray.specs.Opened.{sparse_open, OpenVector};
ghost use Rattle.ffi.specs.Answers.{ef_answer, ef_sparse};
ghost use Rattle.ffi.specs.Many.{many_sparse};

use crate::EfAnswer;
use crate::many::answer_each;
use crate::tell::Tell;
use errors::Refusal;
use sarray::build::from_bits;
use sarray::queries::{
    access, access_opened, predecessor1, predecessor1_opened, rank1, rank1_opened, select1,
    select1_opened, successor1, successor1_opened,
};
use sarray::vector::{SArray, open};

// Makes the image of a vector of so many bits: its length, 0 for zeros, or a refusal.
#[unsafe(no_mangle)]
pub extern "C" fn ef_sarray_from_bits(
    words: &[u64],
    len: usize,
    rank: bool,
    buffer: &mut [u64],
) -> EfAnswer
    ensures { (result ≡ ef_answer (sparse_from_bits words.now len rank buffer.old).answer) × (buffer.new ≡ (sparse_from_bits words.now len rank buffer.old).words) }
{
    from_bits(words, len, rank, &mut *buffer).tell()
}

// Decides whether an image is one of a vector of so many bits with such a choice: 0, or the refusal's number, as C has it.
#[unsafe(no_mangle)]
pub extern "C" fn ef_sarray_open(image: &[u64], len: usize, rank: bool) -> u64
    ensures { result ≡ ef_sparse (sparse_open len rank image.now) }
{
    match open(image, len, rank) {
        Ok(_) => 0,
        Err(e) => u64::from(e),
    }
}

// The bit at a place.
#[unsafe(no_mangle)]
pub extern "C" fn ef_sarray_access(image: &[u64], len: usize, rank: bool, pos: usize) -> EfAnswer
    ensures { result ≡ ef_answer (sparse_query len rank image.now (Access pos)) }
{
    access(image, len, rank, pos).tell()
}

// How many ones stand before a place.
#[unsafe(no_mangle)]
pub extern "C" fn ef_sarray_rank1(image: &[u64], len: usize, rank: bool, pos: usize) -> EfAnswer
    ensures { result ≡ ef_answer (sparse_query len rank image.now (Rank1 pos)) }
{
    rank1(image, len, rank, pos).tell()
}

// The place of the one with the number k.
#[unsafe(no_mangle)]
pub extern "C" fn ef_sarray_select1(image: &[u64], len: usize, rank: bool, k: usize) -> EfAnswer
    ensures { result ≡ ef_answer (sparse_query len rank image.now (Select1 k)) }
{
    select1(image, len, rank, k).tell()
}

// The last one at a place or before it.
#[unsafe(no_mangle)]
pub extern "C" fn ef_sarray_predecessor1(
    image: &[u64],
    len: usize,
    rank: bool,
    pos: usize,
) -> EfAnswer
    ensures { result ≡ ef_answer (sparse_query len rank image.now (Predecessor1 pos)) }
{
    predecessor1(image, len, rank, pos).tell()
}

// The first one at a place or after it.
#[unsafe(no_mangle)]
pub extern "C" fn ef_sarray_successor1(
    image: &[u64],
    len: usize,
    rank: bool,
    pos: usize,
) -> EfAnswer
    ensures { result ≡ ef_answer (sparse_query len rank image.now (Successor1 pos)) }
{
    successor1(image, len, rank, pos).tell()
}

// The answers to all questions of a vector, which is opened once.
fn answer_all<F: Fn(SArray, u64) -> EfAnswer>(
    answer: F,
    image: &[u64],
    len: usize,
    rank: bool,
    args: &[u64],
    out: &mut [u64],
) -> EfAnswer
    requires { (v : SArray) (x : ℕ) → OpenVector image.now v → F.pre answer v x }
    ensures { (q : ℕ → SparseQuestion) → ((v : SArray) (x : ℕ) (r : EfAnswer) → F.post answer v x r → r ≡ ef_answer (sparse_ask v.num_bits v.has_rank (times image.now) (q x))) → (result ≡ ef_answer (many_sparse len rank image.now q args.now out.old).answer) × (out.new ≡ (many_sparse len rank image.now q args.now out.old).words) }
{
    match open(image, len, rank) {
        Ok(v) => answer_each(
            |x: u64| -> EfAnswer
                requires { F.pre answer v x }
                ensures { F.post answer v x result }
            { answer(v, x) },
            args,
            &mut *out,
        )
        .tell(),
        Err(e) => Err::<u64, Refusal>(e).tell(),
    }
}

// The bits at these places.
#[unsafe(no_mangle)]
pub extern "C" fn ef_sarray_accesses(
    image: &[u64],
    len: usize,
    rank: bool,
    positions: &[u64],
    out: &mut [u64],
) -> EfAnswer
    ensures { (result ≡ ef_answer (many_sparse len rank image.now Access positions.now out.old).answer) × (out.new ≡ (many_sparse len rank image.now Access positions.now out.old).words) }
{
    answer_all(
        |v: SArray, x: u64|
            requires { OpenVector image.now v }
            ensures { result ≡ ef_answer (sparse_ask v.num_bits v.has_rank (times image.entry.now) (Access x)) }
        { access_opened(image, v, x as usize).tell() },
        image,
        len,
        rank,
        positions,
        &mut *out,
    )
}

// How many ones stand before each of these places.
#[unsafe(no_mangle)]
pub extern "C" fn ef_sarray_rank1s(
    image: &[u64],
    len: usize,
    rank: bool,
    positions: &[u64],
    out: &mut [u64],
) -> EfAnswer
    ensures { (result ≡ ef_answer (many_sparse len rank image.now Rank1 positions.now out.old).answer) × (out.new ≡ (many_sparse len rank image.now Rank1 positions.now out.old).words) }
{
    answer_all(
        |v: SArray, x: u64|
            requires { OpenVector image.now v }
            ensures { result ≡ ef_answer (sparse_ask v.num_bits v.has_rank (times image.entry.now) (Rank1 x)) }
        { rank1_opened(image, v, x as usize).tell() },
        image,
        len,
        rank,
        positions,
        &mut *out,
    )
}

// The places of the ones with these numbers.
#[unsafe(no_mangle)]
pub extern "C" fn ef_sarray_select1s(
    image: &[u64],
    len: usize,
    rank: bool,
    ks: &[u64],
    out: &mut [u64],
) -> EfAnswer
    ensures { (result ≡ ef_answer (many_sparse len rank image.now Select1 ks.now out.old).answer) × (out.new ≡ (many_sparse len rank image.now Select1 ks.now out.old).words) }
{
    answer_all(
        |v: SArray, x: u64|
            requires { OpenVector image.now v }
            ensures { result ≡ ef_answer (sparse_ask v.num_bits v.has_rank (times image.entry.now) (Select1 x)) }
        { select1_opened(image, v, x as usize).tell() },
        image,
        len,
        rank,
        ks,
        &mut *out,
    )
}

// The last one at each of these places or before it.
#[unsafe(no_mangle)]
pub extern "C" fn ef_sarray_predecessor1s(
    image: &[u64],
    len: usize,
    rank: bool,
    positions: &[u64],
    out: &mut [u64],
) -> EfAnswer
    ensures { (result ≡ ef_answer (many_sparse len rank image.now Predecessor1 positions.now out.old).answer) × (out.new ≡ (many_sparse len rank image.now Predecessor1 positions.now out.old).words) }
{
    answer_all(
        |v: SArray, x: u64|
            requires { OpenVector image.now v }
            ensures { result ≡ ef_answer (sparse_ask v.num_bits v.has_rank (times image.entry.now) (Predecessor1 x)) }
        { predecessor1_opened(image, v, x as usize).tell() },
        image,
        len,
        rank,
        positions,
        &mut *out,
    )
}

// The first one at each of these places or after it.
#[unsafe(no_mangle)]
pub extern "C" fn ef_sarray_successor1s(
    image: &[u64],
    len: usize,
    rank: bool,
    positions: &[u64],
    out: &mut [u64],
) -> EfAnswer
    ensures { (result ≡ ef_answer (many_sparse len rank image.now Successor1 positions.now out.old).answer) × (out.new ≡ (many_sparse len rank image.now Successor1 positions.now out.old).words) }
{
    answer_all(
        |v: SArray, x: u64|
            requires { OpenVector image.now v }
            ensures { result ≡ ef_answer (sparse_ask v.num_bits v.has_rank (times image.entry.now) (Successor1 x)) }
        { successor1_opened(image, v, x as usize).tell() },
        image,
        len,
        rank,
        positions,
        &mut *out,
    )
}
