// One question a call. Each opens the image first and decides 7 by it, in time linear in its words.
ghost use Rattle.std.specs.Prelude.{◌≡◌};
ghost use Rattle.elias_fano.specs.Ask.{Select, Delta, Rank, Predecessor, Successor, Binsearch, BinsearchRange, Len, IsEmpty, Universe, HasRank, query, read_from_of};
ghost use Rattle.weekly_windows.specs.Windows.{count_of};
ghost use Rattle.winters.specs.Winters.{compare_of};
ghost use Rattle.ffi.specs.Answers.{ef_answer};

use crate::EfAnswer;
use crate::tell::Tell;
use elias_fano::image::select;
use elias_fano_queries::delta::delta;
use elias_fano_queries::header::{has_rank, is_empty, len, universe};
use elias_fano_queries::neighbours::{predecessor, successor};
use elias_fano_queries::rank::rank;
use elias_fano_walk::read::read_from;
use elias_fano_walk::search::{binsearch, binsearch_range};
use weekly_windows::count;
use winters::compare;

// The value with the number k.
#[unsafe(no_mangle)]
pub extern "C" fn ef_select(words: &[u64], k: usize) -> EfAnswer
    ensures { result ≡ ef_answer (query words.now (Select k)) }
{
    select(words, k).tell()
}

// The value with the number k less the one before it; the first value for 0.
#[unsafe(no_mangle)]
pub extern "C" fn ef_delta(words: &[u64], k: usize) -> EfAnswer
    ensures { result ≡ ef_answer (query words.now (Delta k)) }
{
    delta(words, k).tell()
}

// How many values are below val.
#[unsafe(no_mangle)]
pub extern "C" fn ef_rank(words: &[u64], val: u64) -> EfAnswer
    ensures { result ≡ ef_answer (query words.now (Rank val)) }
{
    rank(words, val).tell()
}

// The greatest value at or below val.
#[unsafe(no_mangle)]
pub extern "C" fn ef_predecessor(words: &[u64], val: u64) -> EfAnswer
    ensures { result ≡ ef_answer (query words.now (Predecessor val)) }
{
    predecessor(words, val).tell()
}

// The smallest value at or above val.
#[unsafe(no_mangle)]
pub extern "C" fn ef_successor(words: &[u64], val: u64) -> EfAnswer
    ensures { result ≡ ef_answer (query words.now (Successor val)) }
{
    successor(words, val).tell()
}

// The number of a value that is val.
#[unsafe(no_mangle)]
pub extern "C" fn ef_binsearch(words: &[u64], val: u64) -> EfAnswer
    ensures { result ≡ ef_answer (query words.now (Binsearch val)) }
{
    binsearch(words, val).tell()
}

// The number of a value that is val, from a on and below b.
#[unsafe(no_mangle)]
pub extern "C" fn ef_binsearch_range(words: &[u64], a: usize, b: usize, val: u64) -> EfAnswer
    ensures { result ≡ ef_answer (query words.now (BinsearchRange a b val)) }
{
    binsearch_range(words, a, b, val).tell()
}

// How many values there are.
#[unsafe(no_mangle)]
pub extern "C" fn ef_len(words: &[u64]) -> EfAnswer
    ensures { result ≡ ef_answer (query words.now Len) }
{
    len(words).tell()
}

// Whether there is no value.
#[unsafe(no_mangle)]
pub extern "C" fn ef_is_empty(words: &[u64]) -> EfAnswer
    ensures { result ≡ ef_answer (query words.now IsEmpty) }
{
    is_empty(words).tell()
}

// What every value is below.
#[unsafe(no_mangle)]
pub extern "C" fn ef_universe(words: &[u64]) -> EfAnswer
    ensures { result ≡ ef_answer (query words.now Universe) }
{
    universe(words).tell()
}

// Whether rank and neighbours can be asked.
#[unsafe(no_mangle)]
pub extern "C" fn ef_has_rank(words: &[u64]) -> EfAnswer
    ensures { result ≡ ef_answer (query words.now HasRank) }
{
    has_rank(words).tell()
}

// The values from the number k on, as many as `out` takes; how many were written. The later words stay.
#[unsafe(no_mangle)]
pub extern "C" fn ef_read_from(words: &[u64], k: usize, out: &mut [u64]) -> EfAnswer
    ensures { (result ≡ ef_answer (read_from_of words.now k out.old).answer) × (out.new ≡ (read_from_of words.now k out.old).words) }
{
    read_from(words, k, &mut *out).tell()
}

// How many values from `from` on and below `to` are in the weekly windows.
#[unsafe(no_mangle)]
pub extern "C" fn ef_count_in_windows(
    words: &[u64],
    windows: &[u64],
    from: u64,
    to: u64,
) -> EfAnswer
    ensures { result ≡ ef_answer (count_of words.now windows.now from to) }
{
    count(words, windows, from, to).tell()
}

// Of each span between two neighbouring seconds the number of values, the first, the last and the shortest gap; how many spans there are. The later words stay.
#[unsafe(no_mangle)]
pub extern "C" fn ef_compare(words: &[u64], seconds: &[u64], out: &mut [u64]) -> EfAnswer
    ensures { (result ≡ ef_answer (compare_of words.now seconds.now out.old).answer) × (out.new ≡ (compare_of words.now seconds.now out.old).words) }
{
    compare(words, seconds, &mut *out).tell()
}
