// Windows: the marks in the page table.
ghost use Rattle.std.specs.Prelude.{◌≡◌, ℕ, length, None, slice_index_or};
ghost use Rattle.lists.specs.Weights.{total};
ghost use Rattle.model.specs.Windows.{is_open};
ghost use Rattle.model.specs.Rows.{wrapped};
ghost use Rattle.census.specs.Views.{marks};
ghost use Rattle.census.specs.SameBut.{SameBut};

use super::page::PageRecord;

// Ends every open window, and counts them.
pub(crate) fn end_windows(table: &mut [PageRecord]) -> u32
    ensures same { SameBut table.old table.new }
    ensures none { (q : ℕ) → slice_index_or (marks table.new) q None ≡ None }
    ensures ended { result ≡ wrapped (total (length table.old) (λ q. is_open (slice_index_or (marks table.old) q None))) }
{
    let mut ended: u32 = 0;
    for record in table.iter_mut() {
        ended = ended.wrapping_add(u32::from(record.mark.take().is_some()));
    }
    ended
}
