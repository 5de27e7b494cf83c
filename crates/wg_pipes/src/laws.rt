//! The laws of fixed function, as the contracts of functions that do nothing.
ghost use Rattle.wg_pipes.specs.SampleLaws.{BytesAreAdded, BytesAreCosts, BytesGrow, EightFit};
ghost use Rattle.wg_pipes.specs.StencilLaws.{StencilCanChange};

/// The bytes that a sample of color targets takes (WebGPU, "Calculating color attachment bytes per sample"): each
/// target in turn begins at the first multiple of its alignment that is not before the end of those before it, and
/// takes its cost. So with more targets a sample never takes fewer bytes; it takes at least what its targets cost,
/// and at most 3 bytes more for each; and 8 targets fit the greatest limit, 128, whatever their formats.
pub fn sample_bytes()
    ensures added { BytesAreAdded }
    ensures grow { BytesGrow }
    ensures costs { BytesAreCosts }
    ensures fit { EightFit }
{}

/// A render pipeline that tells its faces counts as one that writes stencil (WebGPU, "GPURenderPipeline",
/// "[[writesStencil]]") exactly where some operation of a sort of faces that is drawn changes some value of the
/// stencil in some bit that the write mask lets through.
pub fn stencil_changes()
    ensures { StencilCanChange }
{}
