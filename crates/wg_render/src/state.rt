//! Render passes and bundles: what is set in one, the rules of their commands, and the step of a whole
//! pass.
ghost use Rattle.std.specs.Prelude.{◌≡◌, ◌+◌, None, if◌then◌else◌, IfOk, OnOk, OnErr};
ghost use Rattle.std.specs.Option.{option_or};
ghost use Rattle.wg_model.specs.Rules.{first_unmet};
ghost use Rattle.wg_types.specs.declared.commands.CommandOf.TheVariants.{BeginOcclusionQuery};
ghost use Rattle.wg_model.specs.Vertex.{draw_fits};
ghost use Rattle.wg_model.specs.Queries.{occlusion_call, occlusion_rules};
ghost use Rattle.wg_model.specs.Render.{buffers_wanted, are_set, strip_wanted, strip_fits, draw_rules, draw_indexed_rules, draw_indirect_rules, draw_indexed_indirect_rules, drawing_rules, render_rules};
ghost use Rattle.wg_compute.specs.After.{slots_after, emptied};
ghost use Rattle.wg_render.specs.After.{render_after};

use crate::bundles::check_bundles;
use crate::draws::{MOST_SLOTS, are_set, check_given_vertex, check_index, indices_fit, strip_fits};
use crate::given::{index_given, vertex_given};
use crate::pipelines::{buffers_wanted, check_pipeline, strip_wanted};
use crate::queries::{check_pass_end, count_given, set_of_pass};
use crate::targets::{extent_of, targets_of, targets_touches};
use crate::touches::{DRAW_BYTES, DRAW_INDEXED_BYTES, command_touches, query_written};
use crate::viewports::{check_draws, check_scissor, check_viewport, draws_after};
use crate::views::RenderBegin;
use std::alloc::Global;
use std::marker::Model;
use wg_compute::{
    Settings, check_end, check_given, check_group, check_indirect, pipeline_given, unsets,
};
use wg_formats::size_or_rest;
use wg_queries::Occlusion;
use wg_rules::{
    INDEX_BUFFER_IS_SET, INDEX_RANGE_SUFFICES, STRIP_INDICES_FIT_PIPELINE, VERTEX_BUFFERS_ARE_SET,
    VERTEX_RANGES_SUFFICE,
};
use wg_types::NoMemory;
use wg_types::commands::Command;
use wg_types::handles::Handle;
use wg_types::limits::CommandLimits;
use wg_types::render::TargetInfo;
use wg_types::steps::Touch;
use wg_types::vertex::IndexFormat;

/// What is set in a render pass or in a bundle: what is set in any pass, the sizes of the ranges that are
/// set as vertex buffers by slot, and the index buffer; to what is drawn, and how wide and high that is; the
/// number of the pass's query set and how many queries that has, if there is one, and the queries of it; how
/// often is drawn so far, and may be; and what is touched so far.
#[derive(Drop)]
pub struct RenderState {
    set: Settings,
    ranges: [Option<u64>; 8],
    index: Option<(IndexFormat, u64)>,
    targets: TargetInfo,
    extent: (u32, u32),
    queries: Option<(u64, u32)>,
    occlusion: Occlusion,
    draws: u64,
    most: Option<u64>,
    touches: Vec<Touch>,
}

impl Model for RenderState {
    ghost use Rattle.std.specs.Prelude.{◌≡◌, length};
    ghost use Rattle.wg_model.specs.Render.{RenderSet};

    ghost Value = { RenderSet };

    ghost view = { λ s. record { set = s.set; ranges = s.ranges; index = s.index; targets = s.targets; extent = s.extent; queries = s.queries; occlusion = s.occlusion; draws = s.draws; most = s.most; touches = s.touches.items } };

    ghost invariant = { λ s. length s.ranges ≡ 8 };
}

impl RenderState {
    ghost use Rattle.wg_model.specs.Render.{render_set, bundle_set};
    ghost use Rattle.std.specs.Prelude.{[]};

    /// Nothing is set but the attachments and the query set, and no query was begun.
    pub fn new(alloc: Global, begin: &RenderBegin) -> Result<RenderState, NoMemory>
        ensures { IfOk result (λ state. state ≡ render_set begin.now []) }
    {
        let targets = targets_of(alloc, begin)?;
        let touches = targets_touches(alloc, begin)?;
        Ok(RenderState {
            set: Settings::new(),
            ranges: [None; 8],
            index: None,
            targets,
            extent: extent_of(begin),
            queries: set_of_pass(&begin.queries),
            occlusion: Occlusion::new(alloc),
            draws: 0,
            most: begin.max_draws,
            touches: touches.into_vec(),
        })
    }

    /// Nothing is set in a bundle that draws to these (WebGPU, "GPURenderBundleEncoder"). It has neither
    /// attachments nor queries.
    pub fn bundle(alloc: Global, targets: &TargetInfo) -> Result<RenderState, NoMemory>
        ensures { IfOk result (λ state. state ≡ bundle_set targets.now []) }
    {
        let targets = targets.clone()?;
        Ok(RenderState {
            set: Settings::new(),
            ranges: [None; 8],
            index: None,
            targets,
            extent: (0, 0),
            queries: None,
            occlusion: Occlusion::new(alloc),
            draws: 0,
            most: None,
            touches: Vec::new(alloc),
        })
    }

    /// How often is drawn so far.
    pub fn draws(&self) -> u64
        ensures { result ≡ self.now.draws }
    {
        self.draws
    }

    /// How many debug groups are open.
    pub fn depth(&self) -> u64
        ensures { result ≡ self.now.set.depth }
    {
        self.set.depth()
    }

    /// What is touched so far.
    pub fn touches(&self) -> &[Touch]
        ensures { result.now ≡ self.now.touches }
    {
        self.touches.as_slice()
    }

    /// Whether each vertex buffer of the pipeline that is not left out is set.
    fn buffers_are_set(&self) -> bool
        ensures { result ≡ are_set (buffers_wanted self.now.set) self.now.ranges 0 }
    {
        are_set(buffers_wanted(&self.set), &self.ranges)
    }

    /// Whether the index buffer that is set has the format that the pipeline wants, if it makes strips.
    fn strip_fits(&self) -> bool
        ensures { result ≡ strip_fits (strip_wanted self.now.set) self.now.index }
    {
        strip_fits(strip_wanted(&self.set), self.index)
    }

    /// Whether so many vertices and instances fit the ranges of the vertex buffers.
    fn draw_fits(&self, vertices: Option<u64>, instances: u64) -> bool
        ensures { result ≡ draw_fits (buffers_wanted self.now.set) self.now.ranges vertices instances }
    {
        wg_vertex::fits(buffers_wanted(&self.set), &self.ranges, vertices, instances)
    }

    #[tactic(auto, using(wg_model::proofs::Unmet::first_unmet_joined))]
    fn check_draw(
        &self,
        vertices: u32,
        instances: u32,
        first_vertex: u32,
        first_instance: u32,
    ) -> Option<u16>
        ensures { result ≡ first_unmet (draw_rules self.now (first_vertex + vertices) (first_instance + instances)) }
    {
        if let Some(rule) = self.set.ready_rule() {
            return Some(rule);
        }
        if !self.buffers_are_set() {
            return Some(VERTEX_BUFFERS_ARE_SET);
        }
        let vertices = u64::from(first_vertex) + u64::from(vertices);
        let instances = u64::from(first_instance) + u64::from(instances);
        if !self.draw_fits(Some(vertices), instances) {
            return Some(VERTEX_RANGES_SUFFICE);
        }
        None
    }

    #[tactic(auto, using(wg_model::proofs::Unmet::first_unmet_joined))]
    fn check_draw_indexed(
        &self,
        indices: u32,
        instances: u32,
        first_index: u32,
        first_instance: u32,
    ) -> Option<u16>
        ensures { result ≡ first_unmet (draw_indexed_rules self.now first_index indices (first_instance + instances)) }
    {
        if let Some(rule) = self.set.ready_rule() {
            return Some(rule);
        }
        if !self.buffers_are_set() {
            return Some(VERTEX_BUFFERS_ARE_SET);
        }
        if self.index.is_none() {
            return Some(INDEX_BUFFER_IS_SET);
        }
        if !self.strip_fits() {
            return Some(STRIP_INDICES_FIT_PIPELINE);
        }
        if !indices_fit(first_index, indices, self.index) {
            return Some(INDEX_RANGE_SUFFICES);
        }
        let instances = u64::from(first_instance) + u64::from(instances);
        if !self.draw_fits(None, instances) {
            return Some(VERTEX_RANGES_SUFFICE);
        }
        None
    }

    #[tactic(auto, using(wg_model::proofs::Unmet::first_unmet_joined))]
    fn check_draw_indirect(&self, buffer: &Handle, offset: u64) -> Option<u16>
        ensures { result ≡ first_unmet (draw_indirect_rules self.now buffer.now offset) }
    {
        if let Some(rule) = self.set.ready_rule() {
            return Some(rule);
        }
        if let Some(rule) = check_indirect(buffer, offset, DRAW_BYTES) {
            return Some(rule);
        }
        if !self.buffers_are_set() {
            return Some(VERTEX_BUFFERS_ARE_SET);
        }
        None
    }

    #[tactic(auto, using(wg_model::proofs::Unmet::first_unmet_joined))]
    fn check_draw_indexed_indirect(&self, buffer: &Handle, offset: u64) -> Option<u16>
        ensures { result ≡ first_unmet (draw_indexed_indirect_rules self.now buffer.now offset) }
    {
        if let Some(rule) = self.set.ready_rule() {
            return Some(rule);
        }
        if let Some(rule) = check_indirect(buffer, offset, DRAW_INDEXED_BYTES) {
            return Some(rule);
        }
        if !self.buffers_are_set() {
            return Some(VERTEX_BUFFERS_ARE_SET);
        }
        if self.index.is_none() {
            return Some(INDEX_BUFFER_IS_SET);
        }
        if !self.strip_fits() {
            return Some(STRIP_INDICES_FIT_PIPELINE);
        }
        None
    }

    /// The first unmet rule of what begins or ends a query.
    fn query_rule(&self, command: &Command) -> Option<u16>
        ensures { result ≡ first_unmet (occlusion_rules self.now.queries self.now.occlusion (occlusion_call command.now)) }
    {
        match command {
            Command::BeginOcclusionQuery { index } => {
                let count = count_given(self.queries);
                self.occlusion.check_begin(count, *index)
            }
            Command::EndOcclusionQuery => self.occlusion.check_end(),
            _ => None,
        }
    }

    /// The first unmet rule of what draws, sets a vertex buffer or the index buffer, the viewport or the
    /// scissor rectangle, executes bundles, or begins or ends a query, by the limits of the device.
    fn drawing_rule(&self, limits: &CommandLimits, command: &Command) -> Option<u16>
        ensures { result ≡ first_unmet (drawing_rules limits.now self.now command.now) }
    {
        match command {
            Command::SetVertexBuffer {
                slot,
                buffer,
                offset,
                size,
            } => check_given_vertex(*slot, buffer, *offset, *size),
            Command::SetIndexBuffer {
                buffer,
                format,
                offset,
                size,
            } => check_index(
                buffer,
                *format,
                *offset,
                size_or_rest(buffer, *offset, *size),
            ),
            Command::SetViewport { viewport } => check_viewport(limits, viewport),
            Command::SetScissorRect {
                x,
                y,
                width,
                height,
            } => check_scissor(self.extent, *x, *y, *width, *height),
            Command::Draw {
                vertices,
                instances,
                first_vertex,
                first_instance,
            } => self.check_draw(*vertices, *instances, *first_vertex, *first_instance),
            Command::DrawIndexed {
                indices,
                instances,
                first_index,
                first_instance,
            } => self.check_draw_indexed(*indices, *instances, *first_index, *first_instance),
            Command::DrawIndirect { buffer, offset } => self.check_draw_indirect(buffer, *offset),
            Command::DrawIndexedIndirect { buffer, offset } => {
                self.check_draw_indexed_indirect(buffer, *offset)
            }
            Command::ExecuteBundles { bundles } => check_bundles(&self.targets, bundles.as_slice()),
            _ => self.query_rule(command),
        }
    }

    /// The number of the first unmet rule of a command, but for those on the objects that it names
    /// (WebGPU, "GPURenderCommandsMixin"), on a device with these limits; none where the command may be taken.
    #[tactic(auto, using(crate::proofs::Rules::rules_parted))]
    pub fn rule(&self, limits: &CommandLimits, command: &Command) -> Option<u16>
        ensures { result ≡ first_unmet (render_rules limits.now self.now command.now) }
    {
        if let Some(rule) = check_group(self.set.depth(), command) {
            return Some(rule);
        }
        if let Some(rule) = check_end(self.set.depth(), command) {
            return Some(rule);
        }
        if let Some(rule) = check_pass_end(self.occlusion.is_active(), command) {
            return Some(rule);
        }
        if let Some(rule) = check_draws(self.most, self.draws, command) {
            return Some(rule);
        }
        if let Some(rule) = check_pipeline(&self.targets, pipeline_given(command)) {
            return Some(rule);
        }
        if let Some(rule) = check_given(command) {
            return Some(rule);
        }
        self.drawing_rule(limits, command)
    }

    /// Sets the range of a vertex buffer, or unsets it. There is no slot past the last, so nothing is set there.
    #[tactic(auto, using(wg_compute::proofs::Slots::slots_unset, wg_compute::proofs::Slots::slot_set, wg_compute::proofs::Slots::slots_past))]
    fn set_range(&mut self, given: Option<(u32, Option<u64>)>)
        ensures { self.new ≡ record self.old { ranges = slots_after given 0 self.old.ranges } }
    {
        if let Some((slot, size)) = given {
            if slot < MOST_SLOTS {
                self.ranges[slot as usize] = size;
            }
        }
    }

    fn set_index(&mut self, given: Option<(IndexFormat, u64)>)
        ensures { self.new ≡ record self.old { index = option_or given self.old.index } }
    {
        if given.is_some() {
            self.index = given;
        }
    }

    /// Unsets the vertex buffers and the index buffer, where all is unset.
    #[tactic(auto, using(wg_compute::proofs::Slots::none_emptied, crate::proofs::Grown::eight_emptied))]
    fn unset(&mut self, all: bool)
        ensures { self.new ≡ record self.old { ranges = emptied all self.old.ranges; index = (if all then None else self.old.index) } }
    {
        if all {
            self.ranges = [None; 8];
            self.index = None;
        }
    }

    /// Takes what a command sets or unsets, and adds what it touches; the queries stay.
    fn add(&mut self, alloc: Global, command: &Command) -> Result<(), NoMemory>
        ensures set { OnOk result (self.new ≡ record (render_after self.old command.now) { occlusion = self.old.occlusion }) }
        ensures unchanged { OnErr result (self.new ≡ self.old) }
    {
        let draws = draws_after(self.draws, command)?;
        let more = command_touches(alloc, self.queries, command)?;
        let more = more.as_slice();
        self.touches.reserve(more.len())?;
        self.set.take(command)?;
        // There is room for these, so that this does not fail.
        self.touches.extend_from_slice(more)?;
        self.set_range(vertex_given(command));
        self.set_index(index_given(command));
        self.unset(unsets(command));
        self.draws = draws;
        Ok(())
    }

    /// Takes the begin of a query, which is written.
    #[tactic(auto, using(crate::proofs::Grown::after_none_begun))]
    fn add_query(&mut self, index: u32) -> Result<(), NoMemory>
        ensures set { OnOk result (self.new ≡ render_after self.old (BeginOcclusionQuery index)) }
        ensures unchanged { OnErr result (self.new ≡ self.old) }
    {
        let Some((object, _)) = self.queries else {
            return self.occlusion.note_begun(index);
        };
        let touch = query_written(object, index)?;
        self.touches.reserve(1)?;
        self.occlusion.note_begun(index)?;
        self.touches.push_reserved(touch);
        Ok(())
    }

    /// Takes a command no rule of which is unmet. Ranges that end past every number, which such commands don't
    /// have, are answered as want of memory.
    #[tactic(auto, using(crate::proofs::Grown::after_end, crate::proofs::Grown::after_viewport, crate::proofs::Grown::after_scissor, crate::proofs::Grown::after_blend_constant, crate::proofs::Grown::after_stencil_reference, crate::proofs::Grown::after_marker, crate::proofs::Grown::after_query_ended))]
    pub fn take(&mut self, alloc: Global, command: &Command) -> Result<(), NoMemory>
        ensures set { OnOk result (self.new ≡ render_after self.old command.now) }
        ensures unchanged { OnErr result (self.new ≡ self.old) }
    {
        match command {
            Command::End
            | Command::SetViewport { .. }
            | Command::SetScissorRect { .. }
            | Command::SetBlendConstant
            | Command::SetStencilReference
            | Command::InsertDebugMarker => return Ok(()),
            Command::BeginOcclusionQuery { index } => return self.add_query(*index),
            Command::EndOcclusionQuery => {
                self.occlusion.note_ended();
                return Ok(());
            }
            _ => return self.add(alloc, command),
        }
    }
}
