// The vault: words in the cells of a bank, each sealed as a frame.
#![tactic(auto)]

mod answers;
mod bytes;
mod calls;
mod parts;
mod sweeping;

pub use answers::{Counts, InjectFault, ReadFault, WriteFault};
pub use parts::Vault;
