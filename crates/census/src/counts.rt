// The count table, which the product asks to be one lent slice: three columns of pages + 1 places. Place d of a column counts what was found at depth d:
// reads, then writes, then the windows that a write ended with the mark d.
ghost use Rattle.std.specs.Prelude.{◌≡◌, ◌≤◌, sum};
ghost use Rattle.model.specs.Rows.{wrapped};
ghost use Rattle.census.specs.Columns.{noted_in, uses_from};

use model::UseKind;

// Where the column of a kind of use begins, for so many pages.
pub(crate) fn uses_from(kind: UseKind, pages: usize) -> usize
    requires { pages ≤ 512 }
    ensures { result ≡ uses_from kind pages }
{
    match kind {
        UseKind::Read => 0,
        UseKind::Write => pages + 1,
    }
}

// Counts what was found, if anything, in the column that begins at `base`.
pub(crate) fn note(counts: &mut [u32], base: usize, found: Option<usize>)
    ensures { counts.new ≡ noted_in base found counts.old }
{
    if let Some(depth) = found
        && depth < counts.len().saturating_sub(base)
    {
        counts[base + depth] = counts[base + depth].wrapping_add(1);
    }
}

// The sum of some places.
pub(crate) fn tally(places: &[u32]) -> u32
    ensures { result ≡ wrapped (sum places.now) }
{
    places
        .iter()
        .fold(0, |sum: u32, count| sum.wrapping_add(*count))
}
