//! The spans of the open frames of a run: the stack machine without burdens, and with weights alone.

ghost use Rattle.std.specs.Prelude.{◌≡◌, List, [], ◌∷◌, IfOk, OnOk};
ghost use Rattle.spp_dag.specs.declared.stack.EntryFrame.{EntryFrame as FrameValue};
ghost use Rattle.spp_stack.specs.Chain.{HasFrames};
ghost use Rattle.spp_path.specs.declared.spans.OpenSpan.{OpenSpan as OpenSpanValue};
ghost use Rattle.spp_path.specs.Outside.{entered_span, entered_spans, IsOutside, IsReached};
ghost use Rattle.spp_maxplus.specs.Weights.{close as close_of};
ghost use Rattle.spp_dag.specs.declared.stack.FrameKind.TheVariants.{Root};
ghost use Rattle.spp_path.specs.Spans.{
  spans,
  open_span,
  strand_spans,
  sync_spans,
  open_spans,
  return_spans,
  returned_weights,
  OnTop,
  OnBelow,
  HasOpen,
  CanRun,
  CanReturn,
};

use spp_dag::FrameKind;
use spp_maxplus::{Burdens, ChildKind, Weights};
use spp_stack::{Entry, Node};
use std::alloc::{AllocError, Global};

/// An open frame, as far as its span goes.
#[derive(Clone, Copy)]
pub(crate) struct OpenSpan {
    /// Its weights without burdens.
    weights: Weights,
    /// How it was entered.
    kind: FrameKind,
}

impl OpenSpan {
    /// A frame that was just opened.
    #[inline(always)]
    fn new(kind: FrameKind) -> Self
        ensures { result ≡ open_span kind }
    {
        OpenSpan {
            weights: Weights::start(),
            kind,
        }
    }

    /// A frame that was open before.
    fn entered(node: &Node) -> Self
        ensures { result ≡ entered_span node.now.frame }
    {
        OpenSpan {
            weights: Weights::of(node.frame.state),
            kind: node.frame.kind,
        }
    }

    /// A frame that was entered so, and that this one opened, has returned with that span.
    #[inline(always)]
    fn receive(&mut self, kind: FrameKind, span: u128)
        requires { CanReturn span self.old }
        ensures { self.new ≡ record self.old { weights = returned_weights kind span self.old.weights } }
    {
        match kind {
            FrameKind::Root => {}
            FrameKind::Called => {
                self.weights
                    .receive(ChildKind::Called, span, Burdens::default());
            }
            FrameKind::Spawned => {
                self.weights
                    .receive(ChildKind::Spawned, span, Burdens::default());
            }
        }
    }
}

/// The open frames between two events, the root first. They are changed where they lie, since to move one costs more
/// than all else.
#[derive(Drop)]
pub(crate) struct OpenSpans {
    frames: Vec<OpenSpan>,
}

impl OpenSpans {
    /// Of the frames that are open where a part begins the innermost alone; the others are outside.
    pub(crate) fn within(alloc: Global, entry: &Entry<'_>) -> Result<Self, AllocError>
        ensures { IfOk result (λ s. (f : FrameValue) (fs : List FrameValue) → HasFrames entry.now (f ∷ fs) → spans s ≡ entered_span f ∷ []) }
    {
        let mut frames = Vec::new(alloc);
        frames.push(OpenSpan::entered(entry.innermost()))?;
        Ok(OpenSpans { frames })
    }

    /// Comes to the innermost of the frames outside, if one alone has been come to; gives those that are left outside.
    #[inline(always)]
    pub(crate) fn reach<'e>(
        &mut self,
        outside: Option<Entry<'e>>,
    ) -> Result<Option<Entry<'e>>, AllocError>
        requires { HasOpen (spans self.old) }
        ensures { IfOk result (λ left. (fs : List FrameValue) → IsOutside outside.entry fs → IsReached OpenSpanValue entered_spans (spans self.old) (spans self.new) fs left) }
    {
        if self.frames.len() > 1 {
            return Ok(outside);
        }
        let Some(entry) = outside else {
            return Ok(None);
        };
        self.frames.insert(0, OpenSpan::entered(entry.innermost()))?;
        Ok(entry.below())
    }

    /// A strand of that many instructions.
    #[inline(always)]
    pub(crate) fn strand(&mut self, count: u64)
        requires { OnTop (CanRun count) (spans self.old) }
        ensures { spans self.new ≡ strand_spans count (spans self.old) }
    {
        let last = self.frames.len() - 1;
        self.frames[last].weights.run(u128::from(count));
    }

    /// A call or a spawn.
    #[inline(always)]
    pub(crate) fn open(&mut self, kind: FrameKind) -> Result<(), AllocError>
        ensures { OnOk result (spans self.new ≡ open_spans kind (spans self.old)) }
    {
        self.frames.push(OpenSpan::new(kind))?;
        Ok(())
    }

    /// A sync.
    #[inline(always)]
    pub(crate) fn sync(&mut self)
        requires { HasOpen (spans self.old) }
        ensures { spans self.new ≡ sync_spans (spans self.old) }
    {
        let last = self.frames.len() - 1;
        self.frames[last].weights.wait();
    }

    /// The span with which the innermost frame closes now.
    #[inline(always)]
    pub(crate) fn innermost(&self) -> u128
        requires { HasOpen (spans self.now) }
        ensures { OnTop (λ f. result ≡ close_of f.weights) (spans self.now) }
    {
        self.frames[self.frames.len() - 1].weights.close()
    }

    /// The return of the innermost frame, which isn't the root and closes with that span.
    #[inline(always)]
    pub(crate) fn ret(&mut self, span: u128)
        requires { OnBelow (CanReturn span) (spans self.old) }
        ensures { spans self.new ≡ return_spans span (spans self.old) }
    {
        let last = self.frames.len() - 1;
        let kind = self.frames[last].kind;
        self.frames.truncate(last);
        self.frames[last - 1].receive(kind, span);
    }
}
