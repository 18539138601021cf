// What the pager and the census are measured against: calls, rows, and the models of both.
// The models are definitions in specs/, over lists of page numbers; the laws about them are in proofs/.
#![tactic(auto)]

// How a page is used.
#[derive(Clone, Copy)]
pub enum UseKind {
    Read,
    Write,
}

// A call that a pager accepted: a use of a page, or a settle, which saves every dirty page.
#[derive(Clone, Copy)]
pub enum Call {
    Use(UseKind, usize),
    Settle,
}

// What a pager of one bottom size does over a list of calls. All but the rate are modulo 2^32.
#[derive(Clone, Copy)]
pub struct Row {
    // pages brought from the store below
    pub fetches: u32,
    // uses of a page that is in no frame
    pub faults: u32,
    // uses of a page in the bottom
    pub reclaims: u32,
    // pages that left the bottom at its end
    pub evictions: u32,
    // pages written to the store below
    pub saves: u32,
    // faults for each thousand calls
    pub rate: u64,
}
