// The calls for C that build a part's context once more: each function has the contract of the call of its name, and does nothing but call it. The wrong
// programs in must-fail/ are other bodies: what a contract rules out is tried here, where a try takes seconds.
#![tactic(auto)]

ghost use Rattle.std.specs.Prelude.{[], ◌∷◌, ◌≡◌};
ghost use Rattle.sequence_reader.specs.Layouts.{record_of};
ghost use Rattle.contexts.specs.Contexts.{quantization_context, loop_filter_context, cdef_context, lr_context};
ghost use Rattle.contexts.specs.Numbers.{quantization_numbers, loop_filter_numbers, cdef_numbers, lr_numbers};

use friscurella::calls;
use sequence_reader::place;

pub fn friscurella_make_quantization_context(header: &[u32; place::NUMBERS], context: &mut [i32; 2])
    ensures { context.new ≡ quantization_numbers (quantization_context (record_of header.now)) }
{
    calls::friscurella_make_quantization_context(header, context);
}

pub fn friscurella_make_segmentation_context(primary_ref_frame: i32, context: &mut [i32; 1])
    ensures { context.new ≡ primary_ref_frame ∷ [] }
{
    calls::friscurella_make_segmentation_context(primary_ref_frame, context);
}

pub fn friscurella_make_loop_filter_context(
    header: &[u32; place::NUMBERS],
    coded_lossless: bool,
    allow_intrabc: bool,
    context: &mut [i32; 3],
)
    ensures { context.new ≡ loop_filter_numbers (loop_filter_context (record_of header.now) coded_lossless allow_intrabc) }
{
    calls::friscurella_make_loop_filter_context(header, coded_lossless, allow_intrabc, context);
}

pub fn friscurella_make_cdef_context(
    header: &[u32; place::NUMBERS],
    coded_lossless: bool,
    allow_intrabc: bool,
    context: &mut [i32; 4],
)
    ensures { context.new ≡ cdef_numbers (cdef_context (record_of header.now) coded_lossless allow_intrabc) }
{
    calls::friscurella_make_cdef_context(header, coded_lossless, allow_intrabc, context);
}

pub fn friscurella_make_lr_context(
    header: &[u32; place::NUMBERS],
    all_lossless: bool,
    allow_intrabc: bool,
    context: &mut [i32; 7],
)
    ensures { context.new ≡ lr_numbers (lr_context (record_of header.now) all_lossless allow_intrabc) }
{
    calls::friscurella_make_lr_context(header, all_lossless, allow_intrabc, context);
}
