// Vaults by example: the lives of words in cells, at both widths and over each kind of bank.
#![tactic(auto)]

#[cfg(test)]
mod tests;
