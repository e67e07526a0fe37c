// The readers of the frame parts once more: each function has the contract of the call of its name, and does nothing but call it. The wrong programs in
// must-fail/ are other bodies: what a contract rules out is tried here, where a try takes seconds.
#![tactic(auto)]

ghost use Rattle.std.specs.Prelude.{replicate, pos};
ghost use Rattle.parts_reader.specs.Reading.{Tells};
ghost use Rattle.quantization.specs.Quantization.{quantization_params};
ghost use Rattle.quantization_reader.specs.Layout.{quantization_place};
ghost use Rattle.segmentation.specs.Segmentation.{segmentation_params};
ghost use Rattle.segmentation_reader.specs.Layout.{segmentation_place};
ghost use Rattle.loop_filter.specs.LoopFilter.{loop_filter_params};
ghost use Rattle.loop_filter_reader.specs.Layout.{loop_filter_place, old_deltas};
ghost use Rattle.cdef.specs.Cdef.{cdef_params};
ghost use Rattle.cdef_reader.specs.Layout.{cdef_place};
ghost use Rattle.restoration.specs.Restoration.{lr_params};
ghost use Rattle.restoration_reader.specs.Layout.{lr_place};

use bits::answer::Refusal;
use cdef::record::CdefContext;
use loop_filter::record::LoopFilterContext;
use quantization::record::QuantizationContext;
use restoration::record::LoopRestorationContext;
use segmentation::record::SegmentationContext;

pub fn read_quantization_params(
    input: &[u8],
    place: u32,
    context: QuantizationContext,
    n: &mut [i32; 13],
) -> Result<u32, Refusal>
    ensures { Tells quantization_place (quantization_params context) place input.now (replicate 13 (pos 0)) result n.new }
{
    quantization_reader::read::read_quantization_params(input, place, context, n)
}

pub fn read_segmentation_params(
    input: &[u8],
    place: u32,
    context: SegmentationContext,
    n: &mut [i32; 133],
) -> Result<u32, Refusal>
    ensures { Tells segmentation_place (segmentation_params context) place input.now (replicate 133 (pos 0)) result n.new }
{
    segmentation_reader::read::read_segmentation_params(input, place, context, n)
}

pub fn read_loop_filter_params(
    input: &[u8],
    place: u32,
    context: LoopFilterContext,
    previous: &[i32; 10],
    n: &mut [i32; 20],
) -> Result<u32, Refusal>
    ensures { Tells loop_filter_place (loop_filter_params context (old_deltas previous.now)) place input.now (replicate 20 (pos 0)) result n.new }
{
    loop_filter_reader::read::read_loop_filter_params(input, place, context, previous, n)
}

pub fn read_cdef_params(
    input: &[u8],
    place: u32,
    context: CdefContext,
    n: &mut [i32; 38],
) -> Result<u32, Refusal>
    ensures { Tells cdef_place (cdef_params context) place input.now (replicate 38 (pos 0)) result n.new }
{
    cdef_reader::read::read_cdef_params(input, place, context, n)
}

pub fn read_lr_params(
    input: &[u8],
    place: u32,
    context: LoopRestorationContext,
    n: &mut [i32; 14],
) -> Result<u32, Refusal>
    ensures { Tells lr_place (lr_params context) place input.now (replicate 14 (pos 0)) result n.new }
{
    restoration_reader::read::read_lr_params(input, place, context, n)
}
