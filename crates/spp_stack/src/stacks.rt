//! The stacks where the parts of a trace begin.

ghost use Rattle.std.specs.Prelude.{◌≡◌, ℕ, ◌+◌, ◌<◌, ◌||◌, [], ◌∷◌, List, length, slice_get, IfSome, IfOk, OnOk, Some, None};
ghost use Rattle.spp_dag.specs.Steps.{has_site, has_func};
ghost use Rattle.spp_site.specs.Marks.{is_marked};
ghost use Rattle.spp_dag.specs.declared.stack.EntryFrame.{EntryFrame as FrameValue};
ghost use Rattle.spp_stack.specs.declared.stacks.Start.{Start as StartValue};
ghost use Rattle.spp_stack.specs.Chain.{IsStart, IsNodeOf, IsTree, HasFrames};

use crate::frames::Frames;
use crate::node::Node;
use spp_site::Marks;
use std::alloc::{AllocError, Global};
use std::marker::Model;

/// Where a part begins, or where the trace ends.
#[derive(Clone, Copy, Debug, PartialEq, Eq)]
pub(crate) struct Start {
    /// The number of the innermost open frame's node.
    pub(crate) top: u32,
    /// Its position: the number of events before it.
    pub(crate) at: u32,
    /// The work of the trace before, in instructions.
    pub(crate) work: u128,
}

/// The open frames where each part of a trace begins, and where the trace ends. Stacks share the nodes of the frames
/// that they have in common.
///
/// Contracts see its nodes, and for each part and the end the number of a node, a position and a work.
#[derive(Drop)]
pub struct Entries {
    pub(crate) nodes: Vec<Node>,
    pub(crate) starts: Vec<Start>,
}

impl Model for Entries {
    ghost use Rattle.spp_stack.specs.Chain.{Stacks, AreSound};

    ghost Value = { Stacks };

    ghost view = { λ e. record { nodes = e.nodes.items; starts = e.starts.items } };

    ghost invariant = { λ e. AreSound (record { nodes = e.nodes.items; starts = e.starts.items }) };
}

/// The frames that are open at one place of a trace, the root among them.
///
/// Contracts see the nodes, the number of its innermost frame's, its position, and the work of the trace before it.
#[derive(Drop)]
pub struct Entry<'e> {
    nodes: &'e [Node],
    top: u32,
    at: u32,
    work: u128,
}

impl<'e> Model for Entry<'e> {
    ghost use Rattle.spp_stack.specs.Chain.{StackOf, IsSoundStack};

    ghost Value = { StackOf };

    ghost view = { λ e. record { nodes = e.nodes.now; top = e.top; at = e.at; work = e.work } };

    ghost invariant = { λ e. IsSoundStack (record { nodes = e.nodes.now; top = e.top; at = e.at; work = e.work }) };
}

impl<'e> Entry<'e> {
    /// Its position: the number of events before it.
    pub fn at(&self) -> u32
        ensures { result ≡ self.now.at }
    {
        self.at
    }

    /// The work of the trace before it, in instructions.
    pub fn work(&self) -> u128
        ensures { result ≡ self.now.work }
    {
        self.work
    }

    /// The number of frames that are open, without the root.
    pub fn depth(&self) -> u32
        ensures { (f : FrameValue) (fs : List FrameValue) → HasFrames self.now (f ∷ fs) → result ≡ length fs }
    {
        self.innermost().depth
    }

    /// The innermost frame's node.
    pub fn innermost(&self) -> &'e Node
        ensures node { slice_get self.now.nodes self.now.top ≡ Some result.now }
        ensures frame { (f : FrameValue) (fs : List FrameValue) → HasFrames self.now (f ∷ fs) → IsNodeOf result.now f fs }
    {
        &self.nodes[self.top as usize]
    }

    /// The frames, from the innermost one outwards to the root, each in constant time and with no memory.
    pub fn frames(&self) -> Frames<'e>
        ensures { (fs : List FrameValue) → HasFrames self.now fs → result ≡ fs }
    {
        Frames::new(self.nodes, self.top)
    }

    /// The frames without the innermost one, at the same position; none where that is the root. It takes a constant
    /// time and no memory.
    pub fn below(&self) -> Option<Entry<'e>>
        ensures some { (f : FrameValue) (fs : List FrameValue) → HasFrames self.now (f ∷ fs) → IfSome result (λ e. HasFrames e fs) }
        ensures none { (f : FrameValue) (fs : List FrameValue) → HasFrames self.now (f ∷ fs) → result ≡ None → fs ≡ [] }
        ensures less { IfSome result (λ e. (e.top < self.now.top) × (e.work ≡ self.now.work)) }
        ensures at { IfSome result (λ e. e.at ≡ self.now.at) }
    {
        let Entry {
            nodes,
            at,
            work,
            ..
        } = *self;
        match self.innermost().below {
            None => None,
            Some(top) => Some(Entry {
                nodes,
                top,
                at,
                work,
            }),
        }
    }
}

impl<'e> Entry<'e> {
    /// The frame of the node of that number and those below it, at the same position.
    pub fn outwards(&self, top: u32) -> Entry<'e>
        requires { top < length self.now.nodes }
        ensures { result ≡ record self.now { top = top } }
    {
        let Entry {
            nodes,
            at,
            work,
            ..
        } = *self;
        Entry {
            nodes,
            top,
            at,
            work,
        }
    }

    /// The set of the sites by which the frames were entered, but not the root's, and that of the functions that they
    /// run. It visits each site and each function once, however many frames there are; the sets also take a byte for
    /// each number up to the greatest.
    ///
    /// # Errors
    ///
    /// Where an allocation failed.
    pub fn marks(&self, alloc: Global) -> Result<(Marks, Marks), AllocError>
        ensures sites { IfOk result (λ m. (fs : List FrameValue) → HasFrames self.now fs → (x : ℕ) → is_marked m.0 x ≡ has_site fs x) }
        ensures funcs { IfOk result (λ m. (fs : List FrameValue) → HasFrames self.now fs → (x : ℕ) → is_marked m.1 x ≡ has_func fs x) }
    {
        let mut sites = Marks::new(alloc);
        self.mark_sites(&mut sites)?;
        let mut funcs = Marks::new(alloc);
        self.mark_funcs(&mut funcs)?;
        Ok((sites, funcs))
    }

    /// The node of that number.
    fn node(&self, number: u32) -> &'e Node
        requires { number < length self.now.nodes }
        ensures { slice_get self.now.nodes number ≡ Some result.now }
    {
        &self.nodes[number as usize]
    }

    /// Puts in their sites.
    fn mark_sites(&self, sites: &mut Marks) -> Result<(), AllocError>
        ensures { OnOk result ((fs : List FrameValue) → HasFrames self.now fs → (x : ℕ) → is_marked sites.new x ≡ (is_marked sites.old x || has_site fs x)) }
    {
        let mut next = Some(self.top);
        while let Some(number) = next {
            let node = self.node(number);
            sites.add_if(node.opens_site(), node.frame.site)?;
            next = node.site_link;
        }
        Ok(())
    }

    /// Puts in their functions.
    fn mark_funcs(&self, funcs: &mut Marks) -> Result<(), AllocError>
        ensures { OnOk result ((fs : List FrameValue) → HasFrames self.now fs → (x : ℕ) → is_marked funcs.new x ≡ (is_marked funcs.old x || has_func fs x)) }
    {
        let mut next = Some(self.top);
        while let Some(number) = next {
            let node = self.node(number);
            funcs.add_if(node.top_func, node.frame.func)?;
            next = node.func_link;
        }
        Ok(())
    }
}

impl Entries {
    /// The number of parts.
    pub fn parts(&self) -> usize
        ensures { result + 1 ≡ length self.now.starts }
    {
        self.starts.len() - 1
    }

    /// The nodes of all open frames. A node names one with a lesser number than its own as below it, or none.
    pub fn nodes(&self) -> &[Node]
        ensures nodes { result.now ≡ self.now.nodes }
        ensures tree { IsTree result.now }
    {
        self.nodes.as_slice()
    }

    /// The number of the innermost frame's node where part `k` begins, or where the trace ends if `k` is the number of
    /// parts.
    pub fn top(&self, k: usize) -> u32
        requires { k < length self.now.starts }
        ensures top { (at : ℕ) (fs : List FrameValue) (work : ℕ) → IsStart self.now k at fs work → HasFrames (record { nodes = self.now.nodes; top = result; at = at; work = work }) fs }
        ensures within { result < length self.now.nodes }
        ensures start { (start : StartValue) → slice_get self.now.starts k ≡ Some start → result ≡ start.top }
    {
        self.starts[k].top
    }

    /// The open frames where part `k` begins, or where the trace ends if `k` is the number of parts, with that position
    /// and the work before it.
    pub fn entry(&self, k: usize) -> Entry<'_>
        requires { k < length self.now.starts }
        ensures entry { (at : ℕ) (fs : List FrameValue) (work : ℕ) → IsStart self.now k at fs work → HasFrames result fs × (result.at ≡ at) × (result.work ≡ work) }
        ensures nodes { result.nodes ≡ self.now.nodes }
        ensures tree { IsTree result.nodes }
        ensures start { (start : StartValue) → slice_get self.now.starts k ≡ Some start → (result.top ≡ start.top) × (result.at ≡ start.at) }
    {
        let start = self.starts[k];
        Entry {
            nodes: self.nodes(),
            top: start.top,
            at: start.at,
            work: start.work,
        }
    }
}
