// Words for lists of page numbers, and the laws about them that every crate above shares.
// The definitions are in specs/ and the laws in proofs/: there is no code here.
#![tactic(auto)]
