// Column sets: the interface, and the laws that every implementation shows.
#![tactic(auto)]

ghost use Rattle.std.specs.Prelude.{◌≡◌, ℕ, List, length, slice_index};
ghost use Rattle.columns.specs.Columns.{Laws};

mod listed;
mod rule;
mod search;
mod sum;
mod table;
#[cfg(test)]
mod tests;

pub use listed::Listed;
pub use rule::RuleSet;
pub use search::find;
pub use sum::column_sum;
pub use table::TableSet;

// A column set gives each data bit a column, a number of r bits.
pub trait ColumnSet {
    // the columns, bit 0 first, and r
    ghost columns: { Self → List ℕ };

    ghost height: { Self → ℕ };

    ghost laws: { (s : Self) → Laws (columns s) (height s) };

    // How many columns there are.
    fn count(&self) -> u32
        ensures { result ≡ length (columns self.now) };

    // r, the number of bits of a column and of a column sum.
    fn sum_bits(&self) -> u32
        ensures { result ≡ height self.now };

    // The column of a bit, and 0 for a bit that has none.
    fn column(&self, bit: u32) -> u32
        ensures { result ≡ slice_index (columns self.now) bit };
}
