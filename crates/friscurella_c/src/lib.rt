// The exports for C: each call of `friscurella`, with its clauses.
#![tactic(auto)]

ghost use Rattle.std.specs.Prelude.{[], ◌∷◌, ◌≡◌, length};
ghost use Rattle.obu.specs.Delimiter.{temporal_delimiter, IsDelimiter, Tells};
ghost use Rattle.obu.specs.Demand3.{read};
ghost use Rattle.sequence.specs.Sequence.{sequence_header};
ghost use Rattle.sequence_reader.specs.Layouts.{header_of, numbers_of, record_of};
ghost use Rattle.sequence_reader.specs.Payload.{payload_part};
ghost use Rattle.quantization_numbers.specs.Numbers.{quantization_walk};
ghost use Rattle.segmentation_numbers.specs.Numbers.{segmentation_walk};
ghost use Rattle.loop_filter_numbers.specs.Numbers.{loop_filter_walk};
ghost use Rattle.cdef_numbers.specs.Numbers.{cdef_walk};
ghost use Rattle.restoration_numbers.specs.Numbers.{lr_walk};
ghost use Rattle.quantization_reader.specs.Layout.{quantization_place, quantization_by};
ghost use Rattle.restoration_reader.specs.Layout.{lr_place, lr_by};
ghost use Rattle.loop_filter_reader.specs.Layout.{loop_filter_place, loop_filter_by};
ghost use Rattle.segmentation_reader.specs.Layout.{segmentation_place, segmentation_by};
ghost use Rattle.cdef_reader.specs.Layout.{cdef_place, cdef_by};
ghost use Rattle.contexts.specs.Contexts.{quantization_context, loop_filter_context, cdef_context, lr_context};
ghost use Rattle.contexts.specs.Numbers.{quantization_numbers, loop_filter_numbers, cdef_numbers, lr_numbers};
ghost use Rattle.starter.specs.Video.{video};
ghost use Rattle.words.specs.Sentence.{explained, cut};
ghost use Rattle.friscurella.specs.Calls.{version, answer_of, part_numbers, lent, wrote_obu, wrote_part, was_read, part_was_read};

use friscurella::calls;
use sequence_reader::place;

// The version of the library, as the header for C has it.
#[unsafe(no_mangle)]
pub extern "C" fn friscurella_version() -> u32
    ensures { result ≡ version }
{
    calls::friscurella_version()
}

// One sentence on an answer, cut where there is no room for it and a 0 byte. Returns the length of the whole sentence.
#[unsafe(no_mangle)]
pub extern "C" fn friscurella_explain(answer: &[u32; 4], text: &mut [u8]) -> u32
    ensures value { result ≡ length (explained answer.now) }
    ensures text_after { text.new ≡ cut (explained answer.now) text.old }
{
    calls::friscurella_explain(answer, text)
}

// A record to start from.
#[unsafe(no_mangle)]
pub extern "C" fn friscurella_video(
    width: u32,
    height: u32,
    bit_depth: u32,
    record: &mut [u32; place::NUMBERS],
)
    ensures { «record».new ≡ numbers_of (video width height bit_depth) }
{
    calls::friscurella_video(width, height, bit_depth, record);
}

#[unsafe(no_mangle)]
pub extern "C" fn friscurella_write_sequence_header(
    record: &[u32; place::NUMBERS],
    out: &mut [u8],
    answer: &mut [u32; 4],
) -> u32
    ensures { lent result answer.new out.new ≡ wrote_obu (sequence_header.enc (record_of «record».now)) out.old }
{
    calls::friscurella_write_sequence_header(record, out, answer)
}

#[unsafe(no_mangle)]
pub extern "C" fn friscurella_write_temporal_delimiter(
    record: &[u32; 5],
    out: &mut [u8],
    answer: &mut [u32; 4],
) -> u32
    ensures { lent result answer.new out.new ≡ wrote_obu (temporal_delimiter (header_of «record».now)) out.old }
{
    calls::friscurella_write_temporal_delimiter(record, out, answer)
}

#[unsafe(no_mangle)]
pub extern "C" fn friscurella_write_quantization_params(
    record: &[i32; 13],
    place: u32,
    out: &mut [u8],
    answer: &mut [u32; 4],
) -> u32
    ensures { lent result answer.new out.new ≡ wrote_part (quantization_walk «record».now) place out.old }
{
    calls::friscurella_write_quantization_params(record, place, out, answer)
}

#[unsafe(no_mangle)]
pub extern "C" fn friscurella_write_segmentation_params(
    record: &[i32; 133],
    place: u32,
    out: &mut [u8],
    answer: &mut [u32; 4],
) -> u32
    ensures { lent result answer.new out.new ≡ wrote_part (segmentation_walk «record».now) place out.old }
{
    calls::friscurella_write_segmentation_params(record, place, out, answer)
}

#[unsafe(no_mangle)]
pub extern "C" fn friscurella_write_loop_filter_params(
    record: &[i32; 20],
    place: u32,
    out: &mut [u8],
    answer: &mut [u32; 4],
) -> u32
    ensures { lent result answer.new out.new ≡ wrote_part (loop_filter_walk «record».now) place out.old }
{
    calls::friscurella_write_loop_filter_params(record, place, out, answer)
}

#[unsafe(no_mangle)]
pub extern "C" fn friscurella_write_cdef_params(
    record: &[i32; 38],
    place: u32,
    out: &mut [u8],
    answer: &mut [u32; 4],
) -> u32
    ensures { lent result answer.new out.new ≡ wrote_part (cdef_walk «record».now) place out.old }
{
    calls::friscurella_write_cdef_params(record, place, out, answer)
}

#[unsafe(no_mangle)]
pub extern "C" fn friscurella_write_lr_params(
    record: &[i32; 14],
    place: u32,
    out: &mut [u8],
    answer: &mut [u32; 4],
) -> u32
    ensures { lent result answer.new out.new ≡ wrote_part (lr_walk «record».now) place out.old }
{
    calls::friscurella_write_lr_params(record, place, out, answer)
}

// What a part goes by, from the sequence header's record and the frame's own values.
#[unsafe(no_mangle)]
pub extern "C" fn friscurella_make_quantization_context(
    header: &[u32; place::NUMBERS],
    context: &mut [i32; 2],
)
    ensures { context.new ≡ quantization_numbers (quantization_context (record_of header.now)) }
{
    calls::friscurella_make_quantization_context(header, context);
}

#[unsafe(no_mangle)]
pub extern "C" fn friscurella_make_segmentation_context(
    primary_ref_frame: i32,
    context: &mut [i32; 1],
)
    ensures { context.new ≡ primary_ref_frame ∷ [] }
{
    calls::friscurella_make_segmentation_context(primary_ref_frame, context);
}

#[unsafe(no_mangle)]
pub extern "C" fn friscurella_make_loop_filter_context(
    header: &[u32; place::NUMBERS],
    coded_lossless: bool,
    allow_intrabc: bool,
    context: &mut [i32; 3],
)
    ensures { context.new ≡ loop_filter_numbers (loop_filter_context (record_of header.now) coded_lossless allow_intrabc) }
{
    calls::friscurella_make_loop_filter_context(header, coded_lossless, allow_intrabc, context);
}

#[unsafe(no_mangle)]
pub extern "C" fn friscurella_make_cdef_context(
    header: &[u32; place::NUMBERS],
    coded_lossless: bool,
    allow_intrabc: bool,
    context: &mut [i32; 4],
)
    ensures { context.new ≡ cdef_numbers (cdef_context (record_of header.now) coded_lossless allow_intrabc) }
{
    calls::friscurella_make_cdef_context(header, coded_lossless, allow_intrabc, context);
}

#[unsafe(no_mangle)]
pub extern "C" fn friscurella_make_lr_context(
    header: &[u32; place::NUMBERS],
    all_lossless: bool,
    allow_intrabc: bool,
    context: &mut [i32; 7],
)
    ensures { context.new ≡ lr_numbers (lr_context (record_of header.now) all_lossless allow_intrabc) }
{
    calls::friscurella_make_lr_context(header, all_lossless, allow_intrabc, context);
}

// Where the input is refused, the record is as it was.
#[unsafe(no_mangle)]
pub extern "C" fn friscurella_read_sequence_header(
    input: &[u8],
    record: &mut [u32; place::NUMBERS],
    answer: &mut [u32; 4],
) -> u32
    ensures { lent result answer.new «record».new ≡ was_read (read sequence_header input.now) «record».old }
{
    calls::friscurella_read_sequence_header(input, record, answer)
}

// Each part is read by the context that stands in its record; where it is refused, the record is as it was.
#[unsafe(no_mangle)]
pub extern "C" fn friscurella_read_quantization_params(
    input: &[u8],
    place: u32,
    record: &mut [i32; 13],
    answer: &mut [u32; 4],
) -> u32
    ensures { lent result answer.new «record».new ≡ part_was_read quantization_place quantization_by place input.now «record».old }
{
    calls::friscurella_read_quantization_params(input, place, record, answer)
}

#[unsafe(no_mangle)]
pub extern "C" fn friscurella_read_lr_params(
    input: &[u8],
    place: u32,
    record: &mut [i32; 14],
    answer: &mut [u32; 4],
) -> u32
    ensures { lent result answer.new «record».new ≡ part_was_read lr_place lr_by place input.now «record».old }
{
    calls::friscurella_read_lr_params(input, place, record, answer)
}

#[unsafe(no_mangle)]
pub extern "C" fn friscurella_read_loop_filter_params(
    input: &[u8],
    place: u32,
    previous: &[i32; 10],
    record: &mut [i32; 20],
    answer: &mut [u32; 4],
) -> u32
    ensures { lent result answer.new «record».new ≡ part_was_read loop_filter_place (loop_filter_by previous.now) place input.now «record».old }
{
    calls::friscurella_read_loop_filter_params(input, place, previous, record, answer)
}

#[unsafe(no_mangle)]
pub extern "C" fn friscurella_read_segmentation_params(
    input: &[u8],
    place: u32,
    record: &mut [i32; 133],
    answer: &mut [u32; 4],
) -> u32
    ensures { lent result answer.new «record».new ≡ part_was_read segmentation_place segmentation_by place input.now «record».old }
{
    calls::friscurella_read_segmentation_params(input, place, record, answer)
}

#[unsafe(no_mangle)]
pub extern "C" fn friscurella_read_cdef_params(
    input: &[u8],
    place: u32,
    record: &mut [i32; 38],
    answer: &mut [u32; 4],
) -> u32
    ensures { lent result answer.new «record».new ≡ part_was_read cdef_place cdef_by place input.now «record».old }
{
    calls::friscurella_read_cdef_params(input, place, record, answer)
}

// The payload's first byte and its length.
#[unsafe(no_mangle)]
pub extern "C" fn friscurella_payload(input: &[u8], answer: &mut [u32; 2])
    ensures { answer.new ≡ part_numbers (payload_part input.now) }
{
    calls::friscurella_payload(input, answer);
}

#[unsafe(no_mangle)]
pub extern "C" fn friscurella_is_temporal_delimiter(input: &[u8]) -> bool
    ensures { Tells result (IsDelimiter input.now) }
{
    calls::friscurella_is_temporal_delimiter(input)
}
