// Numbers at places.
ghost use Rattle.std.specs.Prelude.{◌≡◌, slice_index_or};
ghost use Rattle.hol_just.specs.Depths.{greatest_at};

/// The number at a place; the other one where there is none.
pub(crate) fn number_at(numbers: &[usize], place: usize, other: usize) -> usize
    ensures { result ≡ slice_index_or numbers.now place other }
{
    if place < numbers.len() {
        numbers[place]
    } else {
        other
    }
}

/// The greatest of the numbers at these places, of a place without a number the other one.
pub(crate) fn greatest_at(numbers: &[usize], places: &[usize], other: usize) -> usize
    ensures { result ≡ greatest_at other numbers.now places.now }
{
    let mut greatest = 0;
    for place in places {
        let number = number_at(numbers, *place, other);
        if greatest < number {
            greatest = number;
        }
    }
    greatest
}
