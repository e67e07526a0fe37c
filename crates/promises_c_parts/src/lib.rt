// The calls for C on the frame parts once more: each function has the contract of the call of its name, and does nothing but call it. The wrong programs
// in must-fail/ are other bodies: what a contract rules out is tried here, where a try takes seconds.
#![tactic(auto)]

ghost use Rattle.std.specs.Prelude.{◌≡◌};
ghost use Rattle.quantization_numbers.specs.Numbers.{quantization_walk};
ghost use Rattle.segmentation_numbers.specs.Numbers.{segmentation_walk};
ghost use Rattle.loop_filter_numbers.specs.Numbers.{loop_filter_walk};
ghost use Rattle.cdef_numbers.specs.Numbers.{cdef_walk};
ghost use Rattle.restoration_numbers.specs.Numbers.{lr_walk};
ghost use Rattle.friscurella.specs.Calls.{lent, wrote_part};

pub fn friscurella_write_quantization_params(
    record: &[i32; 13],
    place: u32,
    out: &mut [u8],
    answer: &mut [u32; 4],
) -> u32
    ensures { lent result answer.new out.new ≡ wrote_part (quantization_walk «record».now) place out.old }
{
    friscurella::calls::friscurella_write_quantization_params(record, place, out, answer)
}

pub fn friscurella_write_segmentation_params(
    record: &[i32; 133],
    place: u32,
    out: &mut [u8],
    answer: &mut [u32; 4],
) -> u32
    ensures { lent result answer.new out.new ≡ wrote_part (segmentation_walk «record».now) place out.old }
{
    friscurella::calls::friscurella_write_segmentation_params(record, place, out, answer)
}

pub fn friscurella_write_loop_filter_params(
    record: &[i32; 20],
    place: u32,
    out: &mut [u8],
    answer: &mut [u32; 4],
) -> u32
    ensures { lent result answer.new out.new ≡ wrote_part (loop_filter_walk «record».now) place out.old }
{
    friscurella::calls::friscurella_write_loop_filter_params(record, place, out, answer)
}

pub fn friscurella_write_cdef_params(
    record: &[i32; 38],
    place: u32,
    out: &mut [u8],
    answer: &mut [u32; 4],
) -> u32
    ensures { lent result answer.new out.new ≡ wrote_part (cdef_walk «record».now) place out.old }
{
    friscurella::calls::friscurella_write_cdef_params(record, place, out, answer)
}

pub fn friscurella_write_lr_params(
    record: &[i32; 14],
    place: u32,
    out: &mut [u8],
    answer: &mut [u32; 4],
) -> u32
    ensures { lent result answer.new out.new ≡ wrote_part (lr_walk «record».now) place out.old }
{
    friscurella::calls::friscurella_write_lr_params(record, place, out, answer)
}
