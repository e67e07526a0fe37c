// The calls for C that read the frame parts once more: each function has the contract of the call of its name, and does nothing but call it. The wrong
// programs in must-fail/ are other bodies: what a contract rules out is tried here, where a try takes seconds.
#![tactic(auto)]

ghost use Rattle.std.specs.Prelude.{◌≡◌};
ghost use Rattle.quantization_reader.specs.Layout.{quantization_place, quantization_by};
ghost use Rattle.segmentation_reader.specs.Layout.{segmentation_place, segmentation_by};
ghost use Rattle.loop_filter_reader.specs.Layout.{loop_filter_place, loop_filter_by};
ghost use Rattle.cdef_reader.specs.Layout.{cdef_place, cdef_by};
ghost use Rattle.restoration_reader.specs.Layout.{lr_place, lr_by};
ghost use Rattle.friscurella.specs.Calls.{lent, part_was_read};

pub fn friscurella_read_quantization_params(
    input: &[u8],
    place: u32,
    record: &mut [i32; 13],
    answer: &mut [u32; 4],
) -> u32
    ensures { lent result answer.new «record».new ≡ part_was_read quantization_place quantization_by place input.now «record».old }
{
    friscurella::calls::friscurella_read_quantization_params(input, place, record, answer)
}

pub fn friscurella_read_segmentation_params(
    input: &[u8],
    place: u32,
    record: &mut [i32; 133],
    answer: &mut [u32; 4],
) -> u32
    ensures { lent result answer.new «record».new ≡ part_was_read segmentation_place segmentation_by place input.now «record».old }
{
    friscurella::calls::friscurella_read_segmentation_params(input, place, record, answer)
}

pub fn friscurella_read_loop_filter_params(
    input: &[u8],
    place: u32,
    previous: &[i32; 10],
    record: &mut [i32; 20],
    answer: &mut [u32; 4],
) -> u32
    ensures { lent result answer.new «record».new ≡ part_was_read loop_filter_place (loop_filter_by previous.now) place input.now «record».old }
{
    friscurella::calls::friscurella_read_loop_filter_params(input, place, previous, record, answer)
}

pub fn friscurella_read_cdef_params(
    input: &[u8],
    place: u32,
    record: &mut [i32; 38],
    answer: &mut [u32; 4],
) -> u32
    ensures { lent result answer.new «record».new ≡ part_was_read cdef_place cdef_by place input.now «record».old }
{
    friscurella::calls::friscurella_read_cdef_params(input, place, record, answer)
}

pub fn friscurella_read_lr_params(
    input: &[u8],
    place: u32,
    record: &mut [i32; 14],
    answer: &mut [u32; 4],
) -> u32
    ensures { lent result answer.new «record».new ≡ part_was_read lr_place lr_by place input.now «record».old }
{
    friscurella::calls::friscurella_read_lr_params(input, place, record, answer)
}
