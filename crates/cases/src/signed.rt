// Numbers that may be below 0, as the calls take them.

// The numbers of a record in two's complement, as many as the call takes; 0 where the record has no more. (Its contract did not prove over a zip, nor over
// array::from_fn, so it has none.)
pub fn signed<const N: usize>(record: &[u32]) -> [i32; N] {
    let mut numbers = [0i32; N];
    for (number, code) in numbers.iter_mut().zip(record) {
        *number = code.cast_signed();
    }
    numbers
}
