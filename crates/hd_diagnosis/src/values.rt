//! The values of a line by their numbers.
ghost use Rattle.std.specs.Prelude.{◌≡◌, ◌-◌, option_map, slice_get};
ghost use Rattle.hd_catalogue.specs.Text.{values_of};

use hd_catalogue::Values;

/// The value of a line with this number, the letter being value 1.
pub(crate) fn value_at(line: &[u8], number: usize) -> Option<&[u8]>
    ensures { option_map (λ value. value.now) result ≡ slice_get (values_of line.now) (number - 1) }
{
    let mut values = Values::of(line);
    for index in 0..number.saturating_sub(1) {
        values.take()?;
    }
    values.take()
}

/// How many values a line has.
pub(crate) fn count_of_values(line: &[u8]) -> usize {
    let mut count = 1usize;
    for byte in line {
        if *byte == b'|' {
            count = count.saturating_add(1);
        }
    }
    count
}
