// The nonce rule and the hub record of document 01, on lent slices. No function that is called from outside asks anything of its caller.
#![tactic(auto)]

mod line;
pub mod nonce;
pub mod opening;
pub mod part;
pub mod reply;
pub mod shape;

// What stands before the AD: tag size (1 byte), key (16), nonce (16), AD length (2).
pub const HEAD: usize = 35;

// The limits, in bytes.
pub const AD_LIMIT: usize = 512;

pub const TEXT_LIMIT: usize = 4096;

pub const INPUT_LIMIT: usize = 4675;
