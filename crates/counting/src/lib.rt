// A recording counted: a census opened by its header and shown every call of it. The two tables go with each call, as in
// the census.
#![tactic(auto)]

mod counted;
mod passes;
mod whole;

pub use counted::Counted;
pub use whole::count;
