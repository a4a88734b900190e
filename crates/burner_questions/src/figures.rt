// What is computed. `change` and `bar` demand numbers of starts that a record may have.
ghost use Rattle.std.specs.Prelude.{◌≡◌, ◌+◌, ◌-◌, ◌*◌, ◌/◌, ◌≤◌, ◌<◌};
ghost use Rattle.burner_questions.specs.Figures.{mean_gap, bar_len};

// No record has more starts.
pub const MOST: u64 = 16777216;

// The mean gap of a span's starts, in whole seconds.
pub fn mean_gap(starts: u64, first: u64, last: u64) -> u64
    ensures { result ≡ mean_gap starts first last }
{
    if starts < 2 {
        return 0;
    }
    last.saturating_sub(first) / (starts - 1)
}

// How far `starts` is from `base`, in whole per cent of it.
pub fn change(starts: u64, base: u64) -> u64
    requires { (starts ≤ 16777216) × (base ≤ 16777216) × (0 < base) }
    ensures { result ≡ ((starts - base) + (base - starts)) * 100 / base }
{
    starts.abs_diff(base) * 100 / base
}

// How long the bar is, where `most` starts have 40.
pub fn bar(starts: u64, most: u64) -> u64
    requires { starts ≤ 16777216 }
    ensures value { result ≡ bar_len starts most }
    ensures upper_bound { result ≤ 40 }
{
    if starts == 0 {
        return 0;
    }
    if most <= starts {
        return 40;
    }
    (starts * 40 / most).max(1)
}
