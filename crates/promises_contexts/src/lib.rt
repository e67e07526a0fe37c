// The calls that build a part's context once more: each function has the contract of the call of its name, and does nothing but call it. The wrong programs
// in must-fail/ are other bodies: what a contract rules out is tried here, where a try takes seconds.
#![tactic(auto)]

ghost use Rattle.std.specs.Prelude.{◌≡◌};
ghost use Rattle.contexts.specs.Contexts.{quantization_context, segmentation_context, loop_filter_context, cdef_context, lr_context};

use cdef::record::CdefContext;
use contexts::of_record;
use loop_filter::record::LoopFilterContext;
use quantization::record::QuantizationContext;
use restoration::record::LoopRestorationContext;
use segmentation::record::SegmentationContext;
use sequence::record::SequenceHeaderObu;

pub fn quantization_context(header: SequenceHeaderObu) -> QuantizationContext
    ensures { result ≡ quantization_context header }
{
    of_record::quantization_context(header)
}

pub fn segmentation_context(primary_ref_frame: u32) -> SegmentationContext
    ensures { result ≡ segmentation_context primary_ref_frame }
{
    of_record::segmentation_context(primary_ref_frame)
}

pub fn loop_filter_context(
    header: SequenceHeaderObu,
    coded_lossless: bool,
    allow_intrabc: bool,
) -> LoopFilterContext
    ensures { result ≡ loop_filter_context header coded_lossless allow_intrabc }
{
    of_record::loop_filter_context(header, coded_lossless, allow_intrabc)
}

pub fn cdef_context(
    header: SequenceHeaderObu,
    coded_lossless: bool,
    allow_intrabc: bool,
) -> CdefContext
    ensures { result ≡ cdef_context header coded_lossless allow_intrabc }
{
    of_record::cdef_context(header, coded_lossless, allow_intrabc)
}

pub fn lr_context(
    header: SequenceHeaderObu,
    all_lossless: bool,
    allow_intrabc: bool,
) -> LoopRestorationContext
    ensures { result ≡ lr_context header all_lossless allow_intrabc }
{
    of_record::lr_context(header, all_lossless, allow_intrabc)
}
