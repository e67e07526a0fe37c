// The fields of a frame part for people to read: a row for each, or the refusal in words. A part is read first: the conditions of its rows are those of its record.
#![tactic(auto)]

pub mod cdef_params; // cdef_params.rt: 5.9.19
pub mod loop_filter_params; // loop_filter_params.rt: 5.9.11
pub mod lr_params; // lr_params.rt: 5.9.20
pub mod quantization_params; // quantization_params.rt: 5.9.12, 5.9.13
pub mod segmentation_params; // segmentation_params.rt: 5.9.14

use bits::answer::Refusal;
use listing::refusal::refusal;
use listing::row::Listing;
use std::io;

// The next bit, for flags that the record does not hold.
fn is_set(l: &Listing<impl Print>) -> bool {
    l.peek().flag().unwrap_or(false)
}

// The heading and the rows of a part that was read from the bit `place` of `input` on; or the refusal in words.
fn answered<P: Print, F: FnOnce(&mut Listing<P>) -> io::Result<()>>(
    rt: &P,
    input: &[u8],
    place: u32,
    answer: Result<u32, Refusal>,
    rows: F,
) -> io::Result<()>
    requires { F.IsAlwaysCallable rows }
{
    match answer {
        Ok(_) => {
            let mut l = Listing::new(rt, input, place as usize);
            l.heading()?;
            rows(&mut l)
        }
        Err(r) => refusal(rt, r),
    }
}
