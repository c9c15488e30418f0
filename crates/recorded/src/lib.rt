// The recorded list: its format, and a record of each kind through the one-shots.
#![tactic(auto)]

pub mod bytes;
pub mod list;
pub mod oneshots;
