// A list of items by its prefix sums. The questions take every image, and no words, which hold no items.
ghost use Rattle.std.specs.Prelude.{◌≡◌};
ghost use Rattle.prefix_summed_elias_fano.specs.Items.{read_items_of};
ghost use Rattle.prefix_summed_elias_fano.specs.Sums.{from_slice_of, access_of, len_of};
ghost use Rattle.ffi.specs.Answers.{ef_answer};

use crate::EfAnswer;
use crate::tell::Tell;
use prefix_summed_elias_fano::access;
use prefix_summed_elias_fano::build::from_slice;
use prefix_summed_elias_fano::walk::read_items;

// Makes an image of the items' prefix sums: its length, or a refusal.
#[unsafe(no_mangle)]
pub extern "C" fn ef_sums_from_slice(items: &[u64], buffer: &mut [u64]) -> EfAnswer
    ensures { (result ≡ ef_answer (from_slice_of items.now buffer.old).answer) × (buffer.new ≡ (from_slice_of items.now buffer.old).words) }
{
    from_slice(items, &mut *buffer).tell()
}

// The item at a place.
#[unsafe(no_mangle)]
pub extern "C" fn ef_sums_access(words: &[u64], pos: usize) -> EfAnswer
    ensures { result ≡ ef_answer (access_of words.now pos) }
{
    access::access(words, pos).tell()
}

// How many items there are.
#[unsafe(no_mangle)]
pub extern "C" fn ef_sums_len(words: &[u64]) -> EfAnswer
    ensures { result ≡ ef_answer (len_of words.now) }
{
    access::len(words).tell()
}

// The items from the place k on, as many as `out` takes; how many were written. The later words stay.
#[unsafe(no_mangle)]
pub extern "C" fn ef_sums_read(words: &[u64], k: usize, out: &mut [u64]) -> EfAnswer
    ensures { (result ≡ ef_answer (read_items_of words.now k out.old).answer) × (out.new ≡ (read_items_of words.now k out.old).words) }
{
    read_items(words, k, &mut *out).tell()
}
