//! What each representation of a dictionary does.
ghost use Rattle.std.specs.Prelude.{◌≡◌, ◌≢◌, ℕ, ◌+◌, ◌-◌, ◌<◌, ◌≤◌, Contains, IfSome, IsSome, is_some, length, pos, slice_index};
ghost use Rattle.dictionary.specs.Dictionary.{Dictionary, HasSameSizes, IsInShape, end_phase_one, entry, line_count, pivot, row_at, with_value};

use frac128::{Frac, Wide};

/// A dictionary in some representation.
///
/// Rows 1 to [`rows`](Tableau::rows) are those of the basic variables. The next one is the objective z, and in phase one
/// another one behind it is the auxiliary objective w. Column 0 has the constants, and the columns from 1 on are those of
/// the nonbasic variables.
pub trait Tableau {
    /// The dictionary that is represented.
    ghost meaning: { Self → Dictionary };

    /// There is room for a pivot on this row and column.
    ghost ready: { Self → ℕ → ℕ → Type 0 };

    /// How many variables are basic.
    fn rows(&self) -> u32
        ensures count { result ≡ length (meaning self.now).basic }
        ensures shape { IsInShape (meaning self.now) };

    /// How many variables are nonbasic.
    fn cols(&self) -> u32
        ensures count { result ≡ length (meaning self.now).nonbasic }
        ensures shape { IsInShape (meaning self.now) };

    fn entry(&self, row: u32, col: u32) -> Frac
        requires row_above { 0 < row }
        requires row_within { row ≤ line_count (meaning self.now) }
        requires col_within { col ≤ length (meaning self.now).nonbasic }
        ensures basic { row ≤ length (meaning self.now).basic
            → result ≡ entry (row_at (meaning self.now).rows row) col }
        ensures objective { row ≡ length (meaning self.now).basic + 1
            → result ≡ entry (meaning self.now).objective col }
        ensures auxiliary { row ≡ length (meaning self.now).basic + 2
            → IfSome (meaning self.now).auxiliary (λ w. result ≡ entry w col) };

    /// The index of the basic variable of a row.
    fn basic(&self, row: u32) -> u32
        requires row_above { 0 < row }
        requires row_within { row ≤ length (meaning self.now).basic }
        ensures { result ≡ slice_index (meaning self.now).basic (row - 1) };

    /// The index of the nonbasic variable of a column.
    fn nonbasic(&self, col: u32) -> u32
        requires col_above { 0 < col }
        requires col_within { col ≤ length (meaning self.now).nonbasic }
        ensures { result ≡ slice_index (meaning self.now).nonbasic (col - 1) };

    /// Whether there is an auxiliary objective.
    fn in_phase_one(&self) -> bool
        ensures { result ≡ is_some (meaning self.now).auxiliary };

    /// Drops the auxiliary objective and the artificial variable's column.
    fn end_phase_one(&mut self)
        requires phase { IsSome (meaning self.old).auxiliary }
        requires artificial { Contains (meaning self.old).nonbasic 0 }
        ensures { meaning self.new ≡ end_phase_one (meaning self.old) };

    /// The variable of the column becomes basic in the row, and the row's variable takes the column.
    ///
    /// It ends at the first operation that doesn't fit. Nothing is known of the entries then, but the sizes are kept.
    fn pivot(&mut self, row: u32, col: u32) -> Result<(), Wide>
        requires row_above { 0 < row }
        requires row_within { row ≤ length (meaning self.old).basic }
        requires col_above { 0 < col }
        requires col_within { col ≤ length (meaning self.old).nonbasic }
        requires not_zero { (entry (row_at (meaning self.old).rows row) col).num ≢ pos 0 }
        requires ready { ready self.old row col }
        ensures value { with_value result (meaning self.new) ≡ pivot row col (meaning self.old) }
        ensures sizes { HasSameSizes (meaning self.old) (meaning self.new) };
}
