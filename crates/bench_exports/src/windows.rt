// Counting in weekly windows: many spans of one image, which is opened once.
use elias_fano::opened::Image;
use weekly_windows::count_opened;

// The counts of all spans, each two words, summed.
fn count_all(image: &Image, windows: &[u64], spans: &[u64]) -> u64 {
    let mut sum: u64 = 0;
    for i in 0..spans.len() / 2 {
        let n = count_opened(image, windows, spans[2 * i], spans[2 * i + 1]);
        sum = sum.wrapping_add(n.unwrap_or(0) as u64);
    }
    sum
}

// The same: the image is opened once.
#[unsafe(no_mangle)]
pub extern "C" fn bench_count_in_windows(image: &[u64], windows: &[u64], spans: &[u64]) -> u64 {
    let Ok(image) = Image::open(image) else {
        return 0;
    };
    count_all(&image, windows, spans)
}
