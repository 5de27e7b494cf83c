//! The calls of a device, each once, with ample memory: what is replied, whole.
ghost use Rattle.std.specs.Prelude.{◌≡◌, ◌+◌, ◌<◌, ◌≤◌, true, is_some};
ghost use Rattle.wg_turn.specs.Passes.{IsPassOf, calls_of};

use std::alloc::Global;
use std::sync::Wait;
use wg_device::{Device, DevicePass};
use wg_encoder::Recorder;
use wg_entry::NoMemory;
use wg_limits::default_limits;
use wg_types::bindings::{BindingKind, GroupEntryOf, LayoutEntry, ResourceOf, SamplerKind};
use wg_types::fixed::{CullMode, DepthState, PrimitiveState, StencilState, Topology};
use wg_types::formats::Format;
use wg_types::handles::{BufferInfo, Handle, Info, ObjRef, QueriesInfo};
use wg_types::items::Items;
use wg_types::render::{RenderDesc, TargetInfo};
use wg_types::replies::{Answer, Filter, How, Reply, Settlement};
use wg_types::samplers::{Compare, SamplerDesc};
use wg_types::textures::{
    AspectWord, DataLayout, TextureDim, TextureInfo, TextureSpot, ViewDesc, ViewDim,
};

/// Whether a call was answered so, with no fault, and settled these promises.
fn is(asked: Result<Reply, NoMemory>, answer: Answer, settled: &[Settlement]) -> bool {
    match asked {
        Ok(reply) => {
            reply.answer == answer && reply.fault.is_none() && reply.settled.as_slice() == settled
        }
        Err(NoMemory) => false,
    }
}

/// The handle of an object, where a call answered that it was made with this number and is valid.
fn made(asked: Result<(Handle, Reply), NoMemory>, number: u64) -> Option<Handle> {
    let (handle, reply) = asked.ok()?;
    let answer = Answer::Made {
        number,
        valid: true,
    };
    if is(Ok(reply), answer, &[]) {
        Some(handle)
    } else {
        None
    }
}

/// Of 64 bytes, which is written and sampled.
const TEXTURE: TextureInfo = TextureInfo {
    size: [4, 4, 1],
    usage: 6,
    format: Format::Rgba8Unorm,
    dim: TextureDim::Two,
    mips: 1,
    samples: 1,
};

const VIEW: ViewDesc = ViewDesc {
    dim: ViewDim::Two,
    aspect: AspectWord::All,
    base_mip: 0,
    mips: 1,
    base_layer: 0,
    layers: 1,
};

const SPOT: TextureSpot = TextureSpot {
    mip: 0,
    origin: [0, 0, 0],
    aspect: AspectWord::All,
};

const ROWS: DataLayout = DataLayout {
    offset: 0,
    bytes_per_row: Some(16),
    rows_per_image: None,
};

/// Makes objects 0 and 1, a texture and its view, and writes to the texture.
fn of_texture<R: Wait>(rt: &R, device: &Device, pass: &mut DevicePass) -> Option<(bool, bool)>
    requires { IsPassOf device.now.lock pass.old × (calls_of pass.old < 100) }
    ensures { IsPassOf device.now.lock pass.new × (calls_of pass.new ≤ calls_of pass.old + 3) }
{
    let texture = made(device.create_texture(rt, pass, TEXTURE), 0)?;
    let view = made(device.create_view(rt, pass, &texture, VIEW), 1).is_some();
    let written = device.write_texture(rt, pass, &texture, SPOT, ROWS, [4, 4, 1], 64);
    Some((view, is(written, Answer::Queued(1), &[])))
}

/// Makes objects 2 and 3, a sampler and the layout of a group that binds it, and gives both.
fn of_sampler<R: Wait>(
    rt: &R,
    alloc: Global,
    device: &Device,
    pass: &mut DevicePass,
) -> Option<(Handle, Handle)>
    requires { IsPassOf device.now.lock pass.old × (calls_of pass.old < 100) }
    ensures { IsPassOf device.now.lock pass.new × (calls_of pass.new ≤ calls_of pass.old + 2) }
{
    let entry = LayoutEntry {
        binding: 0,
        visibility: 4,
        kind: BindingKind::Sampler {
            sampler_type: SamplerKind::Filtering,
        },
    };
    let entries = vec![in alloc; entry].ok()?;
    let desc = SamplerDesc::Kind(SamplerKind::Filtering);
    let sampler = made(device.create_sampler(rt, pass, desc), 2)?;
    let layout = made(device.create_bind_group_layout(rt, pass, entries), 3)?;
    Some((sampler, layout))
}

/// Makes object 4, a group that binds the sampler, and gives the layout back.
fn of_group<R: Wait>(
    rt: &R,
    alloc: Global,
    device: &Device,
    pass: &mut DevicePass,
) -> Option<Handle>
    requires { IsPassOf device.now.lock pass.old × (calls_of pass.old < 100) }
    ensures { IsPassOf device.now.lock pass.new × (calls_of pass.new ≤ calls_of pass.old + 3) }
{
    let (sampler, layout) = of_sampler(rt, alloc, device, pass)?;
    let entry = GroupEntryOf {
        binding: 0,
        resource: ResourceOf::Sampler { sampler },
    };
    let entries = vec![in alloc; entry].ok()?;
    let group = made(device.create_bind_group(rt, pass, &layout, entries), 4);
    if group.is_some() { Some(layout) } else { None }
}

/// A render pipeline that draws to a depth attachment alone, of which it writes nothing.
fn depth_alone(alloc: Global) -> RenderDesc {
    RenderDesc {
        iface: Items::new(alloc),
        buffers: Items::new(alloc),
        targets: Items::new(alloc),
        primitive: PrimitiveState {
            topology: Topology::TriangleList,
            strip_index_format: None,
            cull_mode: CullMode::None,
        },
        depth: Some(DepthState {
            format: Format::Depth16Unorm,
            depth_write: Some(false),
            depth_compare: Some(Compare::Always),
            stencil: StencilState::Written(false),
            bias: false,
        }),
        samples: 1,
        alpha_to_coverage: false,
    }
}

/// Makes objects 5 to 7, a pipeline layout of the group's and pipelines of both kinds, and object 8, the layout of
/// a group that is got of one.
fn of_pipelines<R: Wait>(
    rt: &R,
    alloc: Global,
    device: &Device,
    pass: &mut DevicePass,
) -> Option<(bool, bool)>
    requires { IsPassOf device.now.lock pass.old × (calls_of pass.old < 100) }
    ensures { IsPassOf device.now.lock pass.new × (calls_of pass.new ≤ calls_of pass.old + 7) }
{
    let group = of_group(rt, alloc, device, pass)?;
    let layouts = vec![in alloc; Some(group)].ok()?;
    let layout = made(device.create_pipeline_layout(rt, pass, layouts), 5)?;
    let compute = device.create_compute_pipeline(rt, pass, Some(&layout), Vec::new(alloc));
    let compute = made(compute, 6)?;
    let render = device.create_render_pipeline(rt, pass, Some(&layout), depth_alone(alloc));
    let render = made(render, 7).is_some();
    let got = device.get_bind_group_layout(rt, pass, &compute, 0);
    Some((render, made(got, 8).is_some()))
}

/// Finishes the encoder of a recorder, which is dropped here.
fn finished<R: Wait>(
    rt: &R,
    device: &Device,
    pass: &mut DevicePass,
    mut recorder: Recorder,
) -> Result<(Handle, Reply), NoMemory>
    requires pass { IsPassOf device.now.lock pass.old × (calls_of pass.old < 101) }
    requires opened { is_some recorder.encoder ≡ true }
    ensures { IsPassOf device.now.lock pass.new × (calls_of pass.new ≤ calls_of pass.old + 1) }
{
    device.finish(rt, pass, &mut recorder)
}

/// Submits the commands of an encoder, which are none.
fn submission<R: Wait>(rt: &R, device: &Device, pass: &mut DevicePass) -> Option<Answer>
    requires { IsPassOf device.now.lock pass.old × (calls_of pass.old < 100) }
    ensures { IsPassOf device.now.lock pass.new × (calls_of pass.new ≤ calls_of pass.old + 3) }
{
    let (recorder, _, _) = device.create_encoder(rt, pass).ok()?;
    let (buffer, _) = finished(rt, device, pass, recorder).ok()?;
    let reply = device.submit(rt, pass, &[buffer]).ok()?;
    Some(reply.answer)
}

/// A buffer that is written and then mapped, while entry 15 asks for the map and entry 16 for the end of the work,
/// which both wait for the write.
fn of_map<R: Wait>(rt: &R, device: &Device, pass: &mut DevicePass, buffer: &Handle) -> [bool; 5]
    requires { IsPassOf device.now.lock pass.old × (calls_of pass.old < 100) }
    ensures { IsPassOf device.now.lock pass.new × (calls_of pass.new ≤ calls_of pass.old + 5) }
{
    let map = Settlement {
        promise: 15,
        how: How::Mapped,
    };
    let work = Settlement {
        promise: 16,
        how: How::Done,
    };
    let written = device.write_buffer(rt, pass, buffer, 0, 16);
    let mapped = device.map_async(rt, pass, buffer, 1, 0, 16);
    let asked = device.work_done(rt, pass);
    let completed = device.complete(rt, pass, 3);
    let unmapped = device.unmap(rt, pass, buffer);
    [
        is(written, Answer::Queued(3), &[]),
        is(mapped, Answer::Promised, &[]),
        is(asked, Answer::Promised, &[]),
        is(completed, Answer::Plain, &[map, work]),
        is(unmapped, Answer::Plain, &[]),
    ]
}

/// After the encoder and its command buffer, which are objects 9 and 10, makes object 11, a buffer that is read by the host, which is dropped at last.
fn of_buffer<R: Wait>(rt: &R, device: &Device, pass: &mut DevicePass) -> Option<([bool; 5], bool)>
    requires { IsPassOf device.now.lock pass.old × (calls_of pass.old < 90) }
    ensures { IsPassOf device.now.lock pass.new × (calls_of pass.new ≤ calls_of pass.old + 7) }
{
    let info = BufferInfo {
        size: 16,
        usage: 9,
        mapped: false,
    };
    let buffer = made(device.create_buffer(rt, pass, info), 11)?;
    let mapped = of_map(rt, device, pass, &buffer);
    let dropped = device.drop_object(rt, pass, &buffer);
    Some((mapped, is(dropped, Answer::Plain, &[])))
}

/// Makes object 12, a set of three queries, and gives what its handle says: which object it is of, whether that
/// is valid, and how many queries it has.
fn of_queries<R: Wait>(
    rt: &R,
    device: &Device,
    pass: &mut DevicePass,
) -> Option<(ObjRef, bool, Option<u32>)>
    requires { IsPassOf device.now.lock pass.old × (calls_of pass.old < 100) }
    ensures { IsPassOf device.now.lock pass.new × (calls_of pass.new ≤ calls_of pass.old + 1) }
{
    let queries = made(device.create_query_set(rt, pass, 3), 12)?;
    let count = match queries.info() {
        Info::Queries(QueriesInfo { count }) => Some(*count),
        _ => None,
    };
    Some((queries.reference(), queries.valid(), count))
}

/// Makes object 13, a bundle encoder that draws to a depth attachment alone, and gives whether it is valid and its
/// recorder is open for it.
fn of_bundle<R: Wait>(rt: &R, alloc: Global, device: &Device, pass: &mut DevicePass) -> Option<bool>
    requires { IsPassOf device.now.lock pass.old × (calls_of pass.old < 100) }
    ensures { IsPassOf device.now.lock pass.new × (calls_of pass.new ≤ calls_of pass.old + 1) }
{
    let targets = TargetInfo {
        colors: Items::new(alloc),
        depth: Some(Format::Depth16Unorm),
        samples: 1,
        depth_read_only: false,
        stencil_read_only: false,
    };
    let (recorder, encoder, _) = device.create_bundle_encoder(rt, pass, targets).ok()?;
    Some(encoder.valid() && recorder.encoder() == Some(encoder.reference()))
}

/// Opens a scope and closes it at entry 23, with no fault in it, and then loses the device.
fn of_scope<R: Wait>(rt: &R, device: &Device, pass: &mut DevicePass) -> [bool; 3]
    requires { IsPassOf device.now.lock pass.old × (calls_of pass.old < 100) }
{
    let null = Settlement {
        promise: 23,
        how: How::Null,
    };
    let pushed = device.push_error_scope(rt, pass, Filter::Validation);
    let popped = device.pop_error_scope(rt, pass);
    let lost = device.lose(rt, pass);
    [
        is(pushed, Answer::Plain, &[]),
        is(popped, Answer::Promised, &[null]),
        is(lost, Answer::Plain, &[]),
    ]
}

type Pair = Option<(bool, bool)>;

type Queued = (Option<Answer>, Option<([bool; 5], bool)>);

type Last = (Option<(ObjRef, bool, Option<u32>)>, Option<bool>, [bool; 3]);

/// What makes objects, then what is queued and settled, and last a query set, a bundle encoder and a scope, on one
/// new device.
fn answers<R: Wait>(rt: &R, alloc: Global) -> Option<((Pair, Pair), Queued, Last)> {
    let Ok((device, mut passes)) = Device::open(alloc, 1024, 7, &default_limits(), 1) else {
        return None;
    };
    let mut pass = passes.pop().unwrap();
    let texture = of_texture(rt, &device, &mut pass);
    let pipelines = of_pipelines(rt, alloc, &device, &mut pass);
    let submitted = submission(rt, &device, &mut pass);
    let buffer = of_buffer(rt, &device, &mut pass);
    let queries = of_queries(rt, &device, &mut pass);
    let bundle = of_bundle(rt, alloc, &device, &mut pass);
    let scope = of_scope(rt, &device, &mut pass);
    Some((
        (texture, pipelines),
        (submitted, buffer),
        (queries, bundle, scope),
    ))
}

#[test]
fn calls_are_answered(rt: HostRuntime) {
    let both = Some((true, true));
    let queued = (Some(Answer::Queued(2)), Some(([true; 5], true)));
    let queries = ObjRef {
        device: 7,
        number: 12,
    };
    let last = (Some((queries, true, Some(3))), Some(true), [true; 3]);
    assert!(rt; answers(&rt, rt.alloc()) == Some(((both, both), queued, last)));
}
