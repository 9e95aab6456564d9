// The search for a syndrome among the columns of a set.
ghost use Rattle.std.specs.Prelude.{◌≡◌, ℕ, Some, MatchOption};
ghost use Rattle.columns.specs.Columns.{HasColumn};

use crate::ColumnSet;

// The bit whose column the syndrome is, and none if no column is.
pub fn find<C: ColumnSet>(set: &C, syndrome: u32) -> Option<u32>
    ensures answer { MatchOption result ((t : ℕ) → HasColumn (C.columns set.now) t syndrome → ⊥) (λ t. HasColumn (C.columns set.now) t syndrome) }
    ensures only { (t : ℕ) → HasColumn (C.columns set.now) t syndrome → result ≡ Some t }
{
    (0..set.count()).find(|bit| set.column(*bit) == syndrome)
}
