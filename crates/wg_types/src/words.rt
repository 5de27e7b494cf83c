//! The words that name calls, in scripts and in reports.
ghost use Rattle.std.specs.Prelude.{◌≡◌, Some};
ghost use Rattle.wg_types.specs.Words.{word_text, word_of, verb_text, IsSpelledAsItsCall};
ghost use Rattle.wg_trace.specs.declared.steps.StepName.{StepName};
ghost use Rattle.wg_types.specs.declared.words.Word.{Word};

/// A call of a script, by its word.
#[derive(Clone, Copy)]
pub enum Word {
    CreateBuffer,
    CreateTexture,
    CreateView,
    CreateSampler,
    CreateBindGroupLayout,
    CreatePipelineLayout,
    CreateBindGroup,
    CreateComputePipeline,
    CreateRenderPipeline,
    GetBindGroupLayout,
    CreateQuerySet,
    CreateEncoder,
    CreateBundleEncoder,
    BeginComputePass,
    BeginRenderPass,
    End,
    Finish,
    FinishBundle,
    PushDebugGroup,
    PopDebugGroup,
    Submit,
    WriteBuffer,
    WriteTexture,
    MapAsync,
    Unmap,
    WorkDone,
    Complete,
    Destroy,
    Drop,
    PushErrorScope,
    PopErrorScope,
    Lose,
    CopyBufferToBuffer,
    CopyBufferToTexture,
    CopyTextureToBuffer,
    CopyTextureToTexture,
    ClearBuffer,
    ResolveQuerySet,
    SetPipeline,
    SetBindGroup,
    SetVertexBuffer,
    SetIndexBuffer,
    Dispatch,
    DispatchIndirect,
    BeginOcclusionQuery,
    EndOcclusionQuery,
    ExecuteBundles,
    Draw,
    DrawIndexed,
    DrawIndirect,
    DrawIndexedIndirect,
    SetViewport,
    SetScissorRect,
    SetBlendConstant,
    SetStencilReference,
    InsertDebugMarker,
    CreateCanvas,
    ConfigureCanvas,
    CurrentTexture,
    Present,
}

/// The calls that a script may name.
const WORDS: [Word; 60] = [
    Word::CreateBuffer,
    Word::CreateTexture,
    Word::CreateView,
    Word::CreateSampler,
    Word::CreateBindGroupLayout,
    Word::CreatePipelineLayout,
    Word::CreateBindGroup,
    Word::CreateComputePipeline,
    Word::CreateRenderPipeline,
    Word::GetBindGroupLayout,
    Word::CreateQuerySet,
    Word::CreateEncoder,
    Word::CreateBundleEncoder,
    Word::BeginComputePass,
    Word::BeginRenderPass,
    Word::End,
    Word::Finish,
    Word::FinishBundle,
    Word::PushDebugGroup,
    Word::PopDebugGroup,
    Word::Submit,
    Word::WriteBuffer,
    Word::WriteTexture,
    Word::MapAsync,
    Word::Unmap,
    Word::WorkDone,
    Word::Complete,
    Word::Destroy,
    Word::Drop,
    Word::PushErrorScope,
    Word::PopErrorScope,
    Word::Lose,
    Word::CopyBufferToBuffer,
    Word::CopyBufferToTexture,
    Word::CopyTextureToBuffer,
    Word::CopyTextureToTexture,
    Word::ClearBuffer,
    Word::ResolveQuerySet,
    Word::SetPipeline,
    Word::SetBindGroup,
    Word::SetVertexBuffer,
    Word::SetIndexBuffer,
    Word::Dispatch,
    Word::DispatchIndirect,
    Word::BeginOcclusionQuery,
    Word::EndOcclusionQuery,
    Word::ExecuteBundles,
    Word::Draw,
    Word::DrawIndexed,
    Word::DrawIndirect,
    Word::DrawIndexedIndirect,
    Word::SetViewport,
    Word::SetScissorRect,
    Word::SetBlendConstant,
    Word::SetStencilReference,
    Word::InsertDebugMarker,
    Word::CreateCanvas,
    Word::ConfigureCanvas,
    Word::CurrentTexture,
    Word::Present,
];

impl Word {
    /// The text of the word.
    pub fn as_str(self) -> &'static str
        ensures { result.now ≡ word_text self }
    {
        match self {
            Word::CreateBuffer => "createBuffer",
            Word::CreateTexture => "createTexture",
            Word::CreateView => "createView",
            Word::CreateSampler => "createSampler",
            Word::CreateBindGroupLayout => "createBindGroupLayout",
            Word::CreatePipelineLayout => "createPipelineLayout",
            Word::CreateBindGroup => "createBindGroup",
            Word::CreateComputePipeline => "createComputePipeline",
            Word::CreateRenderPipeline => "createRenderPipeline",
            Word::GetBindGroupLayout => "getBindGroupLayout",
            Word::CreateQuerySet => "createQuerySet",
            Word::CreateEncoder => "createEncoder",
            Word::CreateBundleEncoder => "createBundleEncoder",
            Word::BeginComputePass => "beginComputePass",
            Word::BeginRenderPass => "beginRenderPass",
            Word::End => "end",
            Word::Finish => "finish",
            Word::FinishBundle => "finishBundle",
            Word::PushDebugGroup => "pushDebugGroup",
            Word::PopDebugGroup => "popDebugGroup",
            Word::Submit => "submit",
            Word::WriteBuffer => "writeBuffer",
            Word::WriteTexture => "writeTexture",
            Word::MapAsync => "mapAsync",
            Word::Unmap => "unmap",
            Word::WorkDone => "workDone",
            Word::Complete => "complete",
            Word::Destroy => "destroy",
            Word::Drop => "drop",
            Word::PushErrorScope => "pushErrorScope",
            Word::PopErrorScope => "popErrorScope",
            Word::Lose => "lose",
            Word::CopyBufferToBuffer => "copyBufferToBuffer",
            Word::CopyBufferToTexture => "copyBufferToTexture",
            Word::CopyTextureToBuffer => "copyTextureToBuffer",
            Word::CopyTextureToTexture => "copyTextureToTexture",
            Word::ClearBuffer => "clearBuffer",
            Word::ResolveQuerySet => "resolveQuerySet",
            Word::SetPipeline => "setPipeline",
            Word::SetBindGroup => "setBindGroup",
            Word::SetVertexBuffer => "setVertexBuffer",
            Word::SetIndexBuffer => "setIndexBuffer",
            Word::Dispatch => "dispatch",
            Word::DispatchIndirect => "dispatchIndirect",
            Word::BeginOcclusionQuery => "beginOcclusionQuery",
            Word::EndOcclusionQuery => "endOcclusionQuery",
            Word::ExecuteBundles => "executeBundles",
            Word::Draw => "draw",
            Word::DrawIndexed => "drawIndexed",
            Word::DrawIndirect => "drawIndirect",
            Word::DrawIndexedIndirect => "drawIndexedIndirect",
            Word::SetViewport => "setViewport",
            Word::SetScissorRect => "setScissorRect",
            Word::SetBlendConstant => "setBlendConstant",
            Word::SetStencilReference => "setStencilReference",
            Word::InsertDebugMarker => "insertDebugMarker",
            Word::CreateCanvas => "createCanvas",
            Word::ConfigureCanvas => "configureCanvas",
            Word::CurrentTexture => "currentTexture",
            Word::Present => "present",
        }
    }

    /// The call that a text names. The text of each word names just that call.
    #[tactic(auto, using(crate::proofs::WordLemmas::text_names, crate::proofs::WordLemmas::steps_are_spelled), unfolding(crate::specs::Words::word_of))]
    pub fn named(text: &str) -> Option<Word>
        ensures found { result ≡ word_of text.now }
        ensures each { (w : Word) → word_of (word_text w) ≡ Some w }
        // Steps are spelled as the calls that ask for them.
        ensures steps { (step : StepName) → IsSpelledAsItsCall step }
    {
        WORDS.iter().copied().find(|word| word.as_str() == text)
    }
}

/// The sorts of events: calls, and the recording call that comes after the end of its encoder or pass.
#[derive(Clone, Copy)]
pub enum Verb {
    Call(Word),
    Late,
}

impl Verb {
    /// The text of the verb, as it stands in the line of an entry.
    pub fn as_str(self) -> &'static str
        ensures { result.now ≡ verb_text self }
    {
        match self {
            Verb::Call(word) => word.as_str(),
            Verb::Late => "late",
        }
    }
}
