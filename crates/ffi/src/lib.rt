// The record for C and Rust: a static library, thin over `elias_fano` and the crates of its questions, of the record from bits, of the prefix
// sums and of the sparse bit vector. ffi/elias_fano.h says it in C, with who owns which words. Slices, flags and structs are as C hands them in.
//
// Here a record is written and opened; `ask` has one question a call, `many` as many as an array holds, `sums` the prefix sums, `sparse` the sparse
// bit vector.
#![tactic(auto)]

ghost use Rattle.std.specs.Prelude.{◌≡◌};
ghost use Rattle.elias_fano.specs.Accept.{open_of};
ghost use Rattle.elias_fano.specs.Made.{made};
ghost use Rattle.elias_fano.specs.Steps.{limit_of, new_of, push_of, build_of, resume_of};
ghost use Rattle.elias_fano_from_bits.specs.FromBits.{from_bits_of};
ghost use Rattle.ffi.specs.Answers.{of_builder, of_refusal, ef_answer, ef_opened, Told};

mod ask;
mod many;
mod sparse;
mod sums;
mod tell;

use crate::tell::Tell;
use elias_fano::builder::Builder;
use elias_fano::{builder, image};
use elias_fano_from_bits::build::from_bits;
use errors::Refusal;

// How far a record is written. (A struct of its own beside `Builder`: C lays it out so, as the two below.)
#[repr(C)]
#[derive(Clone, Copy)]
pub struct EfBuilder {
    pub universe: u64,
    pub num_vals: u64,
    pub num_pushed: u64,
    pub last: u64,
}

// The refusal's number, 0 where the call is accepted, and the builder to go on with.
#[repr(C)]
#[derive(Clone, Copy)]
pub struct EfPushed {
    pub refusal: u64,
    pub builder: EfBuilder,
}

// What an answer is, and the value or the refusal's number.
#[repr(C)]
#[derive(Clone, Copy)]
pub struct EfAnswer {
    pub kind: u64,
    pub value: u64,
}

// The kinds of an answer.
pub const EF_VALUE: u64 = 0;

pub const EF_NONE: u64 = 1;

pub const EF_REFUSED: u64 = 2;

impl From<Builder> for EfBuilder {
    ghost from_gives = { λ b r. of_builder r ≡ b };

    fn from(b: Builder) -> EfBuilder {
        let Builder {
            universe,
            num_vals,
            num_pushed,
            last,
        } = b;
        EfBuilder {
            universe,
            num_vals,
            num_pushed,
            last,
        }
    }
}

impl From<EfBuilder> for Builder {
    ghost from_gives = { λ b r. r ≡ of_builder b };

    fn from(b: EfBuilder) -> Builder {
        let EfBuilder {
            universe,
            num_vals,
            num_pushed,
            last,
        } = b;
        Builder {
            universe,
            num_vals,
            num_pushed,
            last,
        }
    }
}

// A refused call leaves the builder that was handed in.
fn told(b: EfBuilder, p: Result<Builder, Refusal>) -> EfPushed
    ensures { Told b p result }
{
    match p {
        Ok(next) => EfPushed {
            refusal: 0,
            builder: EfBuilder::from(next),
        },
        Err(e) => EfPushed {
            refusal: u64::from(e),
            builder: b,
        },
    }
}

// How many words are enough for every record of these settings, or a refusal.
#[unsafe(no_mangle)]
pub extern "C" fn ef_limit(universe: u64, num_vals: u64, rank: bool) -> EfAnswer
    ensures { result ≡ ef_answer (limit_of universe num_vals rank) }
{
    builder::limit(universe, num_vals, rank).tell()
}

// Begins a record.
#[unsafe(no_mangle)]
pub extern "C" fn ef_new(universe: u64, num_vals: u64, buffer: &mut [u64]) -> EfPushed
    ensures { made (of_refusal result.refusal) (of_builder result.builder) buffer.new ≡ new_of universe num_vals buffer.old }
{
    told(
        EfBuilder {
            universe: 0,
            num_vals: 0,
            num_pushed: 0,
            last: 0,
        },
        builder::new(universe, num_vals, &mut *buffer),
    )
}

// Files one value more.
#[unsafe(no_mangle)]
pub extern "C" fn ef_push(b: EfBuilder, val: u64, buffer: &mut [u64]) -> EfPushed
    ensures { made (of_refusal result.refusal) (of_builder result.builder) buffer.new ≡ push_of (of_builder b) val buffer.old }
{
    told(b, builder::push(Builder::from(b), val, &mut *buffer))
}

// Whether a builder and words that were stored can be gone on with.
#[unsafe(no_mangle)]
pub extern "C" fn ef_resume(b: EfBuilder, words: &[u64]) -> EfPushed
    ensures { made (of_refusal result.refusal) (of_builder result.builder) words.now ≡ resume_of (of_builder b) words.now }
{
    told(b, builder::resume(Builder::from(b), words))
}

// Makes an image of the words: its length, or a refusal.
#[unsafe(no_mangle)]
pub extern "C" fn ef_build(b: EfBuilder, rank: bool, buffer: &mut [u64]) -> EfAnswer
    ensures { (result ≡ ef_answer (build_of (of_builder b) rank buffer.old).answer) × (buffer.new ≡ (build_of (of_builder b) rank buffer.old).words) }
{
    builder::build(Builder::from(b), rank, &mut *buffer).tell()
}

// Makes an image of the places of the ones among so many bits: its length, or a refusal.
#[unsafe(no_mangle)]
pub extern "C" fn ef_from_bits(
    words: &[u64],
    len: usize,
    rank: bool,
    buffer: &mut [u64],
) -> EfAnswer
    ensures { (result ≡ ef_answer (from_bits_of words.now len rank buffer.old).answer) × (buffer.new ≡ (from_bits_of words.now len rank buffer.old).words) }
{
    from_bits(words, len, rank, &mut *buffer).tell()
}

// Decides whether an image is one that some run writes: 0, or the refusal's number, as C has it.
#[unsafe(no_mangle)]
pub extern "C" fn ef_open(words: &[u64]) -> u64
    ensures { result ≡ ef_opened (open_of words.now) }
{
    match image::open(words) {
        Ok(_) => 0,
        Err(e) => u64::from(e),
    }
}
