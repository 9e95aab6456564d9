// Salts: which numbers are admitted, the token that holds one, and the noise that they are drawn from.
#![tactic(auto)]

mod admission;
mod source;
#[cfg(test)]
mod tests;

pub use admission::admits;
pub use source::{DrawFault, Noise, Salt};
