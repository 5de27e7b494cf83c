//! The numbers of the rules of a device's calls, as docs/rules.json has them with what each asks.
#![tactic(auto)]

/// Of calls that name objects.
pub const OBJECT_IS_OF_DEVICE: u16 = 10;
/// Of calls that name objects.
pub const OBJECT_IS_NOT_DROPPED: u16 = 11;
/// Of calls that name objects.
pub const OBJECT_IS_VALID: u16 = 12;
/// Of createBuffer, createTexture and createQuerySet.
pub const BYTES_ARE_WITHIN_BUDGET: u16 = 13;
/// Of recording calls.
pub const CALL_IS_NOT_LATE: u16 = 14;
/// Of createBuffer.
pub const BUFFER_USAGE_IS_KNOWN: u16 = 100;
/// Of createBuffer.
pub const MAP_READ_GOES_WITH_COPY_DST: u16 = 101;
/// Of createBuffer.
pub const MAP_WRITE_GOES_WITH_COPY_SRC: u16 = 102;
/// Of createBuffer.
pub const BUFFER_SIZE_IS_WITHIN_LIMIT: u16 = 103;
/// Of createBuffer.
pub const MAPPED_BUFFER_SIZE_IS_ALIGNED: u16 = 104;
/// Of createTexture.
pub const TEXTURE_USAGE_IS_KNOWN: u16 = 110;
/// Of createTexture.
pub const TEXTURE_SIZE_IS_NOT_ZERO: u16 = 111;
/// Of createTexture.
pub const TEXTURE_SIZE_IS_WITHIN_LIMITS: u16 = 112;
/// Of createTexture.
pub const MIP_LEVELS_FIT_TEXTURE: u16 = 113;
/// Of createTexture.
pub const TEXTURE_SAMPLES_ARE_ONE_OR_FOUR: u16 = 114;
/// Of createTexture.
pub const TEXTURE_MAY_BE_MULTISAMPLED: u16 = 115;
/// Of createTexture.
pub const DEPTH_STENCIL_TEXTURE_IS_2D: u16 = 116;
/// Of createTexture.
pub const RENDER_ATTACHMENT_IS_NOT_1D: u16 = 117;
/// Of createTexture.
pub const FORMAT_ALLOWS_STORAGE_BINDING: u16 = 118;
/// Of createView.
pub const FORMAT_HAS_VIEW_ASPECT: u16 = 120;
/// Of createView.
pub const VIEW_MIP_LEVELS_ARE_IN_TEXTURE: u16 = 121;
/// Of createView.
pub const VIEW_LAYERS_ARE_IN_TEXTURE: u16 = 122;
/// Of createView.
pub const VIEW_DIMENSION_FITS_TEXTURE: u16 = 123;
/// Of createView.
pub const VIEW_LAYERS_FIT_DIMENSION: u16 = 124;
/// Of createView.
pub const CUBE_VIEW_TEXTURE_IS_SQUARE: u16 = 125;
/// Of createView.
pub const MULTISAMPLED_VIEW_IS_2D: u16 = 126;
/// Of createBindGroupLayout.
pub const LAYOUT_BINDINGS_ARE_DISTINCT: u16 = 130;
/// Of createBindGroupLayout.
pub const LAYOUT_BINDINGS_ARE_WITHIN_LIMIT: u16 = 131;
/// Of createBindGroupLayout.
pub const LAYOUT_VISIBILITY_IS_KNOWN: u16 = 132;
/// Of createBindGroupLayout.
pub const VERTEX_STAGE_WRITES_NOTHING: u16 = 133;
/// Of createBindGroupLayout.
pub const MULTISAMPLED_BINDING_IS_2D_AND_NOT_FLOAT: u16 = 134;
/// Of createBindGroupLayout.
pub const STORAGE_TEXTURE_FORMAT_HAS_ACCESS: u16 = 135;
/// Of createBindGroupLayout.
pub const LAYOUT_STAGES_ARE_WITHIN_LIMITS: u16 = 136;
/// Of createBindGroupLayout.
pub const LAYOUT_DYNAMIC_BUFFERS_ARE_WITHIN_LIMITS: u16 = 137;
/// Of createPipelineLayout.
pub const PIPELINE_LAYOUT_COUNT_IS_WITHIN_LIMIT: u16 = 140;
/// Of createPipelineLayout.
pub const PIPELINE_LAYOUT_STAGES_ARE_WITHIN_LIMITS: u16 = 141;
/// Of createPipelineLayout.
pub const PIPELINE_LAYOUT_DYNAMIC_BUFFERS_ARE_WITHIN_LIMITS: u16 = 142;
/// Of createPipelineLayout.
pub const LAYOUTS_ARE_EXCLUSIVE_TO_NO_PIPELINE: u16 = 143;
/// Of createBindGroup.
pub const ENTRIES_MATCH_LAYOUT: u16 = 150;
/// Of createBindGroup.
pub const ENTRY_RESOURCES_FIT_LAYOUT: u16 = 151;
/// Of createBindGroup.
pub const BOUND_BUFFER_USAGE_FITS: u16 = 152;
/// Of createBindGroup.
pub const BOUND_RANGES_FIT_BUFFERS: u16 = 153;
/// Of createBindGroup.
pub const BOUND_SIZES_ARE_WITHIN_LIMITS: u16 = 154;
/// Of createBindGroup.
pub const BOUND_TEXTURE_VIEWS_FIT: u16 = 155;
/// Of createBindGroup.
pub const BOUND_STORAGE_VIEWS_FIT: u16 = 156;
/// Of createBindGroup.
pub const BOUND_SAMPLERS_FIT: u16 = 157;
/// Of createComputePipeline and createRenderPipeline.
pub const INTERFACE_FITS_LAYOUT: u16 = 160;
/// Of createRenderPipeline.
pub const VERTEX_BUFFERS_ARE_WITHIN_LIMITS: u16 = 161;
/// Of createRenderPipeline.
pub const VERTEX_ATTRIBUTES_FIT: u16 = 162;
/// Of createRenderPipeline.
pub const PIPELINE_TARGETS_ARE_COLORS: u16 = 163;
/// Of createRenderPipeline.
pub const PIPELINE_DEPTH_FORMAT_FITS: u16 = 164;
/// Of createRenderPipeline.
pub const PIPELINE_HAS_TARGET: u16 = 165;
/// Of createRenderPipeline.
pub const PIPELINE_SAMPLES_ARE_ALLOWED: u16 = 166;
/// Of createComputePipeline and createRenderPipeline.
pub const AUTO_INTERFACE_AGREES: u16 = 167;
/// Of createComputePipeline and createRenderPipeline.
pub const DERIVED_LAYOUTS_ARE_ALLOWED: u16 = 168;
/// Of getBindGroupLayout.
pub const GROUP_INDEX_IS_IN_PIPELINE: u16 = 169;
/// Of createQuerySet.
pub const QUERY_COUNT_IS_WITHIN_LIMIT: u16 = 170;
/// Of createBundleEncoder.
pub const BUNDLE_FORMATS_FIT: u16 = 175;
/// Of createBundleEncoder.
pub const BUNDLE_HAS_TARGET: u16 = 176;
/// Of createBundleEncoder.
pub const BUNDLE_SAMPLES_ARE_ALLOWED: u16 = 177;
/// Of finish and finishBundle.
pub const ENCODER_HAS_NOT_ENDED: u16 = 180;
/// Of finish.
pub const EVERY_PASS_HAS_ENDED: u16 = 182;
/// Of finish and finishBundle.
pub const EVERY_DEBUG_GROUP_OF_ENCODER_IS_CLOSED: u16 = 183;
/// Of finish and finishBundle.
pub const USAGE_SCOPES_ARE_COMPATIBLE: u16 = 184;
/// Of submit.
pub const COMMAND_BUFFERS_ARE_NOT_CONSUMED: u16 = 190;
/// Of submit.
pub const COMMAND_BUFFERS_ARE_DISTINCT: u16 = 191;
/// Of submit.
pub const SUBMITTED_BUFFERS_ARE_NOT_BUSY: u16 = 192;
/// Of submit.
pub const SUBMITTED_OBJECTS_ARE_NOT_DESTROYED: u16 = 193;
/// Of writeBuffer.
pub const WRITTEN_BUFFER_HAS_COPY_DST: u16 = 200;
/// Of writeBuffer.
pub const WRITTEN_RANGE_IS_ALIGNED: u16 = 201;
/// Of writeBuffer.
pub const WRITTEN_RANGE_FITS_BUFFER: u16 = 202;
/// Of writeBuffer.
pub const WRITTEN_BUFFER_IS_NOT_BUSY: u16 = 203;
/// Of writeTexture.
pub const WRITTEN_TEXTURE_HAS_COPY_DST: u16 = 205;
/// Of writeTexture.
pub const WRITTEN_TEXTURE_HAS_ONE_SAMPLE: u16 = 206;
/// Of writeTexture.
pub const WRITTEN_PLACE_IS_IN_TEXTURE: u16 = 207;
/// Of writeTexture.
pub const WRITTEN_ASPECT_CAN_BE_COPIED_TO: u16 = 208;
/// Of writeTexture.
pub const WRITTEN_LAYOUT_FITS_DATA: u16 = 209;
/// Of writeTexture.
pub const WRITTEN_TEXTURE_IS_NOT_DESTROYED: u16 = 210;
/// Of mapAsync.
pub const MAP_OFFSET_IS_ALIGNED: u16 = 220;
/// Of mapAsync.
pub const MAP_SIZE_IS_ALIGNED: u16 = 221;
/// Of mapAsync.
pub const MAP_RANGE_FITS_BUFFER: u16 = 222;
/// Of mapAsync.
pub const MAP_MODE_IS_KNOWN: u16 = 223;
/// Of mapAsync.
pub const MAP_MODE_FITS_USAGE: u16 = 224;
/// Of mapAsync.
pub const MAPPED_BUFFER_IS_NOT_BUSY: u16 = 225;
/// Of commands on an encoder.
pub const NO_PASS_IS_OPEN: u16 = 240;
/// Of copyBufferToBuffer.
pub const BUFFER_COPY_SOURCE_HAS_COPY_SRC: u16 = 250;
/// Of copyBufferToBuffer.
pub const BUFFER_COPY_TARGET_HAS_COPY_DST: u16 = 251;
/// Of copyBufferToBuffer.
pub const BUFFER_COPY_RANGES_ARE_ALIGNED: u16 = 252;
/// Of copyBufferToBuffer.
pub const BUFFER_COPY_RANGES_FIT_BUFFERS: u16 = 253;
/// Of copyBufferToBuffer.
pub const BUFFER_COPY_HAS_TWO_BUFFERS: u16 = 254;
/// Of copyBufferToTexture.
pub const BUFFER_TO_TEXTURE_SOURCE_HAS_COPY_SRC: u16 = 255;
/// Of copyBufferToTexture.
pub const BUFFER_TO_TEXTURE_TARGET_HAS_COPY_DST: u16 = 256;
/// Of copyBufferToTexture and copyTextureToBuffer.
pub const COPIED_TEXTURE_HAS_ONE_SAMPLE: u16 = 257;
/// Of copyBufferToTexture, copyTextureToBuffer and copyTextureToTexture.
pub const COPIED_PLACE_IS_IN_TEXTURE: u16 = 258;
/// Of copyBufferToTexture.
pub const ASPECT_CAN_BE_COPIED_TO: u16 = 259;
/// Of copyBufferToTexture and copyTextureToBuffer.
pub const BYTES_PER_ROW_ARE_ALIGNED: u16 = 260;
/// Of copyBufferToTexture and copyTextureToBuffer.
pub const COPIED_OFFSET_IS_ALIGNED: u16 = 261;
/// Of copyBufferToTexture and copyTextureToBuffer.
pub const COPIED_LAYOUT_FITS_BUFFER: u16 = 262;
/// Of copyTextureToBuffer.
pub const TEXTURE_TO_BUFFER_SOURCE_HAS_COPY_SRC: u16 = 265;
/// Of copyTextureToBuffer.
pub const TEXTURE_TO_BUFFER_TARGET_HAS_COPY_DST: u16 = 266;
/// Of copyTextureToBuffer.
pub const ASPECT_CAN_BE_COPIED_FROM: u16 = 267;
/// Of copyTextureToTexture.
pub const TEXTURE_COPY_SOURCE_HAS_COPY_SRC: u16 = 270;
/// Of copyTextureToTexture.
pub const TEXTURE_COPY_TARGET_HAS_COPY_DST: u16 = 271;
/// Of copyTextureToTexture.
pub const TEXTURE_COPY_FORMATS_ARE_COMPATIBLE: u16 = 272;
/// Of copyTextureToTexture.
pub const TEXTURE_COPY_SAMPLES_ARE_EQUAL: u16 = 273;
/// Of copyTextureToTexture.
pub const TEXTURE_COPY_SUBRESOURCES_ARE_APART: u16 = 274;
/// Of clearBuffer.
pub const CLEARED_BUFFER_HAS_COPY_DST: u16 = 275;
/// Of clearBuffer.
pub const CLEARED_RANGE_IS_ALIGNED: u16 = 276;
/// Of clearBuffer.
pub const CLEARED_RANGE_FITS_BUFFER: u16 = 277;
/// Of resolveQuerySet.
pub const RESOLVED_BUFFER_HAS_QUERY_RESOLVE: u16 = 280;
/// Of resolveQuerySet.
pub const RESOLVED_QUERIES_ARE_IN_SET: u16 = 281;
/// Of resolveQuerySet.
pub const RESOLVED_OFFSET_IS_ALIGNED: u16 = 282;
/// Of resolveQuerySet.
pub const RESOLVED_RANGE_FITS_BUFFER: u16 = 283;
/// Of popDebugGroup.
pub const DEBUG_GROUP_IS_OPEN: u16 = 285;
/// Of beginRenderPass.
pub const PASS_COLORS_ARE_WITHIN_LIMIT: u16 = 300;
/// Of beginRenderPass.
pub const PASS_HAS_ATTACHMENT: u16 = 301;
/// Of beginRenderPass.
pub const COLOR_VIEWS_ARE_RENDERABLE: u16 = 302;
/// Of beginRenderPass.
pub const DEPTH_VIEW_IS_RENDERABLE: u16 = 303;
/// Of beginRenderPass.
pub const DEPTH_OPERATIONS_FIT_FORMAT: u16 = 304;
/// Of beginRenderPass.
pub const ATTACHMENTS_AGREE_IN_EXTENT_AND_SAMPLES: u16 = 305;
/// Of beginRenderPass.
pub const NOTHING_IS_ATTACHED_TWICE: u16 = 306;
/// Of beginRenderPass.
pub const RESOLVE_VIEWS_FIT_COLORS: u16 = 307;
/// Of beginRenderPass.
pub const DEPTH_SLICES_FIT_VIEWS: u16 = 308;
/// Of end.
pub const EVERY_DEBUG_GROUP_OF_PASS_IS_CLOSED: u16 = 310;
/// Of end.
pub const EVERY_OCCLUSION_QUERY_HAS_ENDED: u16 = 311;
/// Of setPipeline.
pub const PIPELINE_DRAWS_TO_TARGETS: u16 = 320;
/// Of setPipeline.
pub const PIPELINE_SPARES_READ_ONLY: u16 = 321;
/// Of setBindGroup.
pub const GROUP_INDEX_IS_WITHIN_LIMIT: u16 = 325;
/// Of setBindGroup.
pub const OFFSET_COUNT_FITS_LAYOUT: u16 = 326;
/// Of setBindGroup.
pub const DYNAMIC_OFFSETS_ARE_ALIGNED: u16 = 327;
/// Of setBindGroup.
pub const DYNAMIC_RANGES_FIT_BUFFERS: u16 = 328;
/// Of setVertexBuffer.
pub const VERTEX_BUFFER_HAS_VERTEX: u16 = 330;
/// Of setVertexBuffer.
pub const VERTEX_SLOT_IS_WITHIN_LIMIT: u16 = 331;
/// Of setVertexBuffer.
pub const VERTEX_OFFSET_IS_ALIGNED: u16 = 332;
/// Of setVertexBuffer.
pub const VERTEX_RANGE_FITS_BUFFER: u16 = 333;
/// Of setIndexBuffer.
pub const INDEX_BUFFER_HAS_INDEX: u16 = 335;
/// Of setIndexBuffer.
pub const INDEX_OFFSET_IS_ALIGNED: u16 = 336;
/// Of setIndexBuffer.
pub const INDEX_RANGE_FITS_BUFFER: u16 = 337;
/// Of dispatches and draws.
pub const PIPELINE_IS_SET: u16 = 340;
/// Of dispatches and draws.
pub const GROUPS_FIT_PIPELINE: u16 = 341;
/// Of dispatches and draws.
pub const WRITTEN_BINDINGS_ARE_APART: u16 = 342;
/// Of dispatch.
pub const WORKGROUPS_ARE_WITHIN_LIMIT: u16 = 343;
/// Of dispatchIndirect, drawIndirect and drawIndexedIndirect.
pub const INDIRECT_BUFFER_HAS_INDIRECT: u16 = 344;
/// Of dispatchIndirect, drawIndirect and drawIndexedIndirect.
pub const INDIRECT_OFFSET_IS_ALIGNED: u16 = 345;
/// Of dispatchIndirect, drawIndirect and drawIndexedIndirect.
pub const INDIRECT_ARGUMENTS_FIT_BUFFER: u16 = 346;
/// Of draw, drawIndexed, drawIndirect and drawIndexedIndirect.
pub const VERTEX_BUFFERS_ARE_SET: u16 = 350;
/// Of draw and drawIndexed.
pub const VERTEX_RANGES_SUFFICE: u16 = 351;
/// Of drawIndexed and drawIndexedIndirect.
pub const INDEX_BUFFER_IS_SET: u16 = 352;
/// Of drawIndexed.
pub const INDEX_RANGE_SUFFICES: u16 = 353;
/// Of beginOcclusionQuery.
pub const PASS_HAS_QUERY_SET: u16 = 360;
/// Of beginOcclusionQuery.
pub const QUERY_INDEX_IS_IN_SET: u16 = 361;
/// Of beginOcclusionQuery.
pub const NO_OCCLUSION_QUERY_IS_ACTIVE: u16 = 362;
/// Of beginOcclusionQuery.
pub const QUERY_IS_NOT_BEGUN_BEFORE: u16 = 363;
/// Of endOcclusionQuery.
pub const OCCLUSION_QUERY_IS_ACTIVE: u16 = 364;
/// Of executeBundles.
pub const BUNDLE_TARGETS_ARE_OF_PASS: u16 = 370;
/// Of executeBundles.
pub const BUNDLES_SPARE_READ_ONLY: u16 = 371;
/// Of setViewport.
pub const VIEWPORT_SIZE_IS_WITHIN_LIMIT: u16 = 400;
/// Of setViewport.
pub const VIEWPORT_IS_WITHIN_BOUNDS: u16 = 401;
/// Of setViewport.
pub const VIEWPORT_DEPTHS_ARE_IN_ORDER: u16 = 402;
/// Of setScissorRect.
pub const SCISSOR_FITS_ATTACHMENTS: u16 = 403;
/// Of end, on a render pass.
pub const DRAWS_ARE_WITHIN_MAXIMUM: u16 = 404;
/// Of createSampler.
pub const LEVELS_OF_DETAIL_ARE_IN_ORDER: u16 = 405;
/// Of createSampler.
pub const ANISOTROPY_FITS_FILTERS: u16 = 406;
/// Of createRenderPipeline.
pub const STRIP_INDEX_FORMAT_IS_OF_STRIPS: u16 = 407;
/// Of createRenderPipeline.
pub const BLENDED_TARGETS_MAY_BLEND: u16 = 408;
/// Of createRenderPipeline.
pub const LEAST_AND_GREATEST_ARE_OF_FACTORS_ONE: u16 = 409;
/// Of createRenderPipeline.
pub const WRITE_MASKS_ARE_KNOWN: u16 = 410;
/// Of createRenderPipeline, createBundleEncoder and beginRenderPass.
pub const SAMPLE_BYTES_ARE_WITHIN_LIMIT: u16 = 411;
/// Of createRenderPipeline.
pub const COMPARED_DEPTH_IS_IN_FORMAT: u16 = 412;
/// Of createRenderPipeline.
pub const STENCIL_OF_FACES_IS_IN_FORMAT: u16 = 413;
/// Of createRenderPipeline.
pub const DEPTH_WRITE_IS_GIVEN: u16 = 414;
/// Of createRenderPipeline.
pub const DEPTH_COMPARE_IS_GIVEN: u16 = 415;
/// Of createRenderPipeline.
pub const DEPTH_BIAS_IS_OF_TRIANGLES: u16 = 416;
/// Of createRenderPipeline.
pub const ALPHA_TO_COVERAGE_FITS_TARGETS: u16 = 417;
/// Of beginRenderPass.
pub const DEPTH_CLEAR_VALUE_IS_IN_RANGE: u16 = 418;
/// Of drawIndexed and drawIndexedIndirect.
pub const STRIP_INDICES_FIT_PIPELINE: u16 = 419;
