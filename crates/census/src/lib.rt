// The census: one run over the calls that a pager accepted tells, for every bottom size at once,
// what a pager of that size would have fetched, faulted, reclaimed, evicted and saved.
//
// It follows a pager whose bottom is without limit. It keeps one record for each page in the caller's page table,
// and its counts in the caller's count table. The tables go with every call: a row reads them shared, so that a struct of
// two `&mut` slices would ask more of its caller, and each contract would have to say that it still holds the same two.
#![tactic(auto)]

mod checks;
mod counts;
mod opening;
mod page;
mod refusal;
mod rows;
mod shows;
mod state;
mod windows;

pub use page::PageRecord;
pub use refusal::CensusRefusal;
pub use state::Census;
