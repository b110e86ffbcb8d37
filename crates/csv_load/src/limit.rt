// How much of a body may be filtered.
ghost use Rattle.std.specs.Prelude.{◌≡◌};
ghost use Rattle.csv_load.specs.Limit.{fails};

/// Whether a load of which so many of all records were filtered fails, where it allows this ratio, in ten-thousandths
/// (`max_filter_ratio` of Apache Doris' Stream Load).
pub fn fails(filtered: u64, total: u64, ratio: u64) -> bool
    ensures above { result ≡ fails filtered total ratio }
{
    u128::from(filtered) * 10_000 > u128::from(ratio) * u128::from(total)
}
