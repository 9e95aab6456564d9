// Frames: a word sealed with a salt, and opened again.
#![tactic(auto)]

mod layout;
mod opener;
mod parts;
mod renewal;
mod sealer;
#[cfg(test)]
mod tests;
mod verdict;
mod word;

pub use layout::{fit, frame_len, worked_frames};
pub use opener::open;
pub use renewal::renew;
pub use sealer::seal;
pub use verdict::{OpenFault, Part, SealFault, Unfit, Verdict};
