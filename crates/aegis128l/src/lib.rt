// AEGIS-128L by blocks: the state, its start, its update, one block of 32 bytes, and the tag. The S-box is made once by each public call
// of the crates above, and lent down as `t`.
#![tactic(auto)]

pub mod mode;
pub mod state;
pub mod tag;

// What keys and nonces have, in bytes.
pub const SIZE: usize = 16;
