// The writers of the frame parts once more: each function has the contract of the call of its name, and does nothing but call it. The wrong programs in
// must-fail/ are other bodies: what a contract rules out is tried here, where a try takes seconds.
#![tactic(auto)]

ghost use Rattle.parts.specs.Written.{Writes};
ghost use Rattle.quantization.specs.Quantization.{quantization_params};
ghost use Rattle.segmentation.specs.Segmentation.{segmentation_params};
ghost use Rattle.loop_filter.specs.LoopFilter.{loop_filter_params, no_old};
ghost use Rattle.cdef.specs.Cdef.{cdef_params};
ghost use Rattle.restoration.specs.Restoration.{lr_params};

use bits::answer::Refusal;
use cdef::record::*;
use loop_filter::record::*;
use quantization::record::*;
use restoration::record::*;
use segmentation::record::*;

pub fn write_quantization_params(
    q: QuantizationParams,
    context: QuantizationContext,
    out: &mut [u8],
    place: u32,
) -> Result<u32, Refusal>
    ensures { Writes ((quantization_params context).enc q) place out.old result out.new }
{
    quantization::write::write_quantization_params(q, context, out, place)
}

pub fn write_segmentation_params(
    p: SegmentationParams,
    context: SegmentationContext,
    out: &mut [u8],
    place: u32,
) -> Result<u32, Refusal>
    ensures { Writes ((segmentation_params context).enc p) place out.old result out.new }
{
    segmentation::write::write_segmentation_params(p, context, out, place)
}

pub fn write_loop_filter_params(
    p: LoopFilterParams,
    context: LoopFilterContext,
    out: &mut [u8],
    place: u32,
) -> Result<u32, Refusal>
    ensures { Writes ((loop_filter_params context no_old).enc p) place out.old result out.new }
{
    loop_filter::write::write_loop_filter_params(p, context, out, place)
}

pub fn write_cdef_params(
    p: CdefParams,
    context: CdefContext,
    out: &mut [u8],
    place: u32,
) -> Result<u32, Refusal>
    ensures { Writes ((cdef_params context).enc p) place out.old result out.new }
{
    cdef::write::write_cdef_params(p, context, out, place)
}

pub fn write_lr_params(
    p: LoopRestorationParams,
    context: LoopRestorationContext,
    out: &mut [u8],
    place: u32,
) -> Result<u32, Refusal>
    ensures { Writes ((lr_params context).enc p) place out.old result out.new }
{
    restoration::write::write_lr_params(p, context, out, place)
}
