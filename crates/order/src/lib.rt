// The order of what is in a top of slots and a linked bottom, kept in a lent table of records of any type that has links and a part.
#![tactic(auto)]

mod moves;
pub mod parts;

pub use parts::TwoParts;
