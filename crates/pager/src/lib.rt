// The pager: pages of any store below in frames, under any top rule.
#![tactic(auto)]

mod counting;
mod frame;
mod frames;
mod lends;
pub mod opening;
pub mod pages;
pub mod places;
pub mod refusal;
mod seats;
mod seeks;
mod settles;
pub mod state;
mod transfers;
mod uses;
mod works;

pub use opening::{NotOpened, may_page};
pub use places::Place;
pub use refusal::PagerRefusal;
pub use state::Pager;
