// What each call refuses, in which order.
ghost use Rattle.std.specs.Prelude.{◌≡◌, ◌≤◌, length};
ghost use Rattle.census.specs.Refusals.{may_open, may_keep, may_show, may_ask};

use super::page::PageRecord;
use super::refusal::CensusRefusal;
use super::state::Census;

// Whether a census of so many pages under so many slots may open in tables of these lengths.
pub(crate) fn may_open(
    pages: usize,
    slots: u32,
    records: usize,
    places: usize,
) -> Result<(), CensusRefusal>
    ensures { result ≡ may_open pages slots records places }
{
    if pages == 0 || pages > 512 {
        return Err(CensusRefusal::PageCount);
    }
    if slots == 0 || slots > 64 {
        return Err(CensusRefusal::TopSize);
    }
    may_keep(pages, records, places)
}

// Whether the tables are long enough.
fn may_keep(pages: usize, records: usize, places: usize) -> Result<(), CensusRefusal>
    requires { pages ≤ 512 }
    ensures { result ≡ may_keep pages records places }
{
    if records < pages || places < 3 * (pages + 1) {
        return Err(CensusRefusal::ShortTable);
    }
    Ok(())
}

impl<R> Census<R> {
    // Whether the tables are long enough.
    pub(crate) fn may_keep(&self, table: &[PageRecord], counts: &[u32]) -> Result<(), CensusRefusal>
        ensures { result ≡ may_keep self.now.pages (length table.now) (length counts.now) }
    {
        may_keep(self.pages, table.len(), counts.len())
    }

    // Whether a use of the page may be shown.
    pub(crate) fn may_show(
        &self,
        table: &[PageRecord],
        counts: &[u32],
        page: usize,
    ) -> Result<(), CensusRefusal>
        ensures { result ≡ may_show self.now.pages (length table.now) (length counts.now) page }
    {
        self.may_keep(table, counts)?;
        if page >= self.pages {
            return Err(CensusRefusal::NoSuchPage);
        }
        Ok(())
    }

    // Whether row l may be asked for. Unlike a page it may be the page count itself, so the two tests are no twins.
    pub(crate) fn may_ask(
        &self,
        table: &[PageRecord],
        counts: &[u32],
        l: usize,
    ) -> Result<(), CensusRefusal>
        ensures { result ≡ may_ask self.now.pages (length table.now) (length counts.now) l }
    {
        self.may_keep(table, counts)?;
        if l > self.pages {
            return Err(CensusRefusal::NoSuchRow);
        }
        Ok(())
    }
}
