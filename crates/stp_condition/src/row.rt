//! Rows by their numbers.

ghost use Rattle.std.specs.Prelude.{◌≡◌, slice_get};

/// The row of a number, if there is one.
pub fn row_at<T: Copy>(rows: &[T], number: u32) -> Option<T>
    ensures { result ≡ slice_get rows.now number }
{
    rows.get(number as usize).copied()
}
