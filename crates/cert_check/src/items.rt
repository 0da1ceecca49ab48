//! Items by their numbers.
ghost use Rattle.std.specs.Prelude.{◌≡◌, ◌≤◌, Some, length};
ghost use Rattle.solve_defs.specs.Certificates.{nth};

/// The item of this number, counted from 1.
pub(crate) fn item<T>(items: &[T], number: u32) -> &T
    requires above_zero { 1 ≤ number }
    requires within { number ≤ length items.now }
    ensures { nth items.now number ≡ Some result.now }
{
    &items[number as usize - 1]
}
