//! The removal of a column.
ghost use Rattle.std.specs.Prelude.{◌≡◌, ◌-◌, ◌*◌, ◌<◌, length, map, remove};
ghost use Rattle.dictionary.specs.Cells.{rows_of};

use frac128::Frac;

/// Removes a column of `count` rows of `width` cells. Each row moves toward the front, the first one first.
pub fn remove_column(cells: &mut Vec<Frac>, count: usize, width: usize, column: usize)
    requires cells { length cells.old.items ≡ count * width }
    requires within { column < width }
    ensures rows { rows_of (width - 1) count cells.new.items ≡ map (λ row. remove row column) (rows_of width count cells.old.items) }
    ensures count { length cells.new.items ≡ count * (width - 1) }
{
    let narrow = width - 1;
    for row in 0..count {
        let from = row * width;
        let to = row * narrow;
        cells.copy_within(from..from + column, to);
        cells.copy_within(from + column + 1..from + width, to + column);
    }
    cells.truncate(count * narrow);
}
