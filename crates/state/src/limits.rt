// Limits of a table's counts and version.
ghost use Rattle.std.specs.Prelude.{◌≡◌};
ghost use Rattle.basics.specs.Choice.{between};
ghost use Rattle.state.specs.State.{is_version};
ghost use Rattle.state.specs.WellFormed.{counts_within};

use crate::Counts;

// Whether the number is one of low to high.
pub fn within(low: u8, high: u8, n: u8) -> bool
    ensures { result ≡ between low high n }
{
    (low <= n) & (n <= high)
}

// Whether the numbers of processors, jobs and objects are within their limits.
pub fn counts_within(counts: Counts) -> bool
    ensures { result ≡ counts_within counts }
{
    within(1, 8, counts.processors) & within(1, 64, counts.jobs) & within(1, 128, counts.objects)
}

// Whether there are tables of this version.
pub fn is_version(version: u8) -> bool
    ensures { result ≡ is_version version }
{
    within(1, 2, version)
}
