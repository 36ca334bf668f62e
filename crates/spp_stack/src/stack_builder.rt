//! The stack of open frames while the parts are gone through.

ghost use Rattle.std.specs.Prelude.{◌≡◌, ℕ, ◌+◌, ◌<◌, ◌≤◌, ◌^◌, ◌++◌, [], ◌∷◌, length, reverse, cond, IfOk, OnOk, Some, None};
ghost use Rattle.spp_maxplus.specs.Seg.{peak};
ghost use Rattle.spp_dag.specs.Stack.{after_child as child_returned};
ghost use Rattle.spp_dag.specs.Steps.{returned as frame_returned};
ghost use Rattle.spp_piece.specs.Bound.{cost, load, load_returns, most_before};
ghost use Rattle.spp_piece.specs.Model.{kind_of as frame_kind};
ghost use Rattle.spp_piece.specs.Summary.{play_returns, play_frames, play};
ghost use Rattle.spp_stack.specs.Chain.{IsNodeOf};
ghost use Rattle.spp_stack.specs.Machine.{Now, now, ret_by, push_by, entry_ops, root_entry, IsOpen, peaks};
ghost use Rattle.spp_stack.specs.StackBuilder.{Stands, IsKept, AreKept, moved, Unmarked};

use crate::node::Node;
use spp_dag::{EntryFrame, FrameKind};
use spp_maxplus::{Burdens, ChildKind, State};
use spp_piece::{Frame, Segs};
use spp_site::Marks;
use spp_summary::Summary;
use std::alloc::{AllocError, Global};

/// The open frames before some event: the innermost by value, those below it as nodes. Nodes don't change.
#[derive(Drop)]
pub(crate) struct StackBuilder {
    pub(crate) nodes: Vec<Node>,
    pub(crate) top: Node,
    /// The sites by which the open frames were entered.
    pub(crate) sites: Marks,
    /// The functions that the open frames run.
    pub(crate) funcs: Marks,
    /// The work before the part.
    pub(crate) work: u128,
}

/// The root frame, before the first event.
fn root_node(root: u32) -> Node
    ensures node { IsNodeOf result (root_entry root) [] }
    ensures below { result.below ≡ None }
    ensures site_link { result.site_link ≡ None }
    ensures func_link { result.func_link ≡ None }
{
    Node {
        frame: EntryFrame {
            kind: FrameKind::Root,
            at: 0,
            site: 0,
            func: root,
            before: 0,
            state: State::start(),
            burdened: State::start(),
            top_site: true,
            top_caller: true,
        },
        below: None,
        depth: 0,
        top_func: true,
        site_link: None,
        func_link: None,
    }
}

/// How a frame was entered that a part has opened.
fn kind_of(kind: ChildKind) -> FrameKind
    ensures { result ≡ frame_kind kind }
{
    match kind {
        ChildKind::Called => FrameKind::Called,
        ChildKind::Spawned => FrameKind::Spawned,
    }
}

/// What the return of a frame that was entered at the position `at` and closed with that weight does to its parent. The
/// burdens are those of the state.
fn receive_child(state: &mut State, kind: FrameKind, at: u32, weight: u128, burdens: Burdens)
    requires { state.old.spine + weight < 2 ^ 127 }
    ensures { state.new ≡ child_returned burdens kind at weight state.old }
{
    match kind {
        FrameKind::Root => {}
        FrameKind::Called => state.receive(ChildKind::Called, at, weight, burdens),
        FrameKind::Spawned => state.receive(ChildKind::Spawned, at, weight, burdens),
    }
}

/// The frame `child` that `parent` opened returns to it. The parent is changed where it lies.
fn receive(burdens: Burdens, child: &EntryFrame, parent: &mut EntryFrame)
    requires plain { parent.old.state.spine + peak child.now.state < 2 ^ 127 }
    requires burdened { parent.old.burdened.spine + peak child.now.burdened < 2 ^ 127 }
    ensures { parent.new ≡ frame_returned burdens child.now parent.old }
{
    let plain = child.state.close();
    let burdened = child.burdened.close();
    receive_child(
        &mut parent.state,
        child.kind,
        child.at,
        plain,
        Burdens::default(),
    );
    receive_child(
        &mut parent.burdened,
        child.kind,
        child.at,
        burdened,
        burdens,
    );
}

/// The link of a node over one that is marked or not, from that one's own.
fn nearest(marked: bool, number: u32, link: Option<u32>) -> Option<u32>
    ensures { result ≡ cond marked (Some number) link }
{
    if marked { Some(number) } else { link }
}

impl StackBuilder {
    /// The root frame alone, before the first part, with room for so many nodes.
    pub(crate) fn start(alloc: Global, root: u32, room: usize) -> Result<StackBuilder, AllocError>
        ensures stands { IfOk result (λ w. Stands w (now (root_entry root ∷ []) 0)) }
        ensures kept { IfOk result IsKept }
        ensures one { IfOk result (λ w. length w.nodes.items ≡ 1) }
    {
        let top = root_node(root);
        let mut funcs = Marks::new(alloc);
        funcs.add(root)?;
        let mut nodes = Vec::with_capacity(alloc, room)?;
        nodes.push(top)?;
        Ok(StackBuilder {
            nodes,
            top,
            sites: Marks::new(alloc),
            funcs,
            work: 0,
        })
    }

    /// The innermost frame's states change.
    fn along(&mut self, segs: &Segs)
        requires { peak self.old.top.frame.state + peak self.old.top.frame.burdened + cost segs.now < 2 ^ 127 }
        ensures { self.new ≡ moved segs.now self.old }
    {
        let frame = self.top.frame;
        self.top.frame.state = segs.plain.apply(frame.state);
        self.top.frame.burdened = segs.burdened.apply(frame.burdened);
    }

    /// The innermost frame's site and function are no longer marked, where no frame below it has them.
    fn unmark(&mut self)
        ensures { Unmarked self.old self.new }
    {
        self.sites
            .remove_if(self.top.frame.top_site, self.top.frame.site);
        self.funcs.remove_if(self.top.top_func, self.top.frame.func);
    }

    /// The innermost frame returns to the one below it.
    fn close(&mut self, burdens: Burdens)
        requires { (x : Now) × Stands self.old x × IsOpen (ret_by burdens x.frames x.work).frames × (peaks x.frames < 2 ^ 127) }
        ensures stands { (x : Now) → Stands self.old x → IsOpen (ret_by burdens x.frames x.work).frames → Stands self.new (ret_by burdens x.frames x.work) }
        ensures nodes { self.new.nodes ≡ self.old.nodes }
        ensures work { self.new.work ≡ self.old.work }
    {
        let Some(below) = self.top.below else {
            unreachable!()
        };
        self.unmark();
        let child = self.top.frame;
        self.top = self.nodes[below as usize];
        receive(burdens, &child, &mut self.top.frame);
    }

    /// The innermost frame becomes a node.
    fn keep(&mut self) -> Result<(), AllocError>
        ensures stands { OnOk result ((x : Now) → Stands self.old x → Stands self.new x) }
        ensures nodes { OnOk result (self.new.nodes.items ≡ self.old.nodes.items ++ self.old.top ∷ []) }
        ensures top { self.new.top ≡ self.old.top }
        ensures kept { OnOk result (IsKept self.new) }
        ensures chains { OnOk result (AreKept self.old.nodes.items self.new.nodes.items) }
        ensures work { self.new.work ≡ self.old.work }
    {
        self.nodes.push(self.top)?;
        Ok(())
    }

    /// The number of the last node.
    pub(crate) fn last(&self) -> u32
        requires some { 0 < length self.now.nodes.items }
        requires few { length self.now.nodes.items ≤ 2 ^ 32 }
        ensures { result + 1 ≡ length self.now.nodes.items }
    {
        (self.nodes.len() - 1) as u32
    }

    /// A frame is opened over the last node.
    fn enter(&mut self, frame: &Frame) -> Result<(), AllocError>
        requires stands { (x : Now) × Stands self.old x }
        requires kept { IsKept self.old }
        requires few { length self.old.nodes.items < 2 ^ 32 }
        requires work { self.old.work + frame.now.before < 2 ^ 128 }
        ensures stands { OnOk result ((x : Now) → Stands self.old x → Stands self.new (push_by x.frames frame.now x.work)) }
        ensures nodes { self.new.nodes ≡ self.old.nodes }
        ensures work { self.new.work ≡ self.old.work }
    {
        let last = self.last();
        let top = self.top;
        let node = Node {
            frame: EntryFrame {
                kind: kind_of(frame.kind),
                at: frame.at,
                site: frame.site,
                func: frame.func,
                before: self.work + frame.before,
                state: frame.states.plain,
                burdened: frame.states.burdened,
                top_site: !self.sites.has(frame.site),
                top_caller: self.top.top_func,
            },
            below: Some(last),
            depth: top.depth + 1,
            top_func: !self.funcs.has(frame.func),
            site_link: nearest(top.opens_site(), last, top.site_link),
            func_link: nearest(top.top_func, last, top.func_link),
        };
        self.sites.add(frame.site)?;
        self.funcs.add(frame.func)?;
        self.top = node;
        Ok(())
    }

    /// A frame is opened over the last node, and becomes a node.
    fn open(&mut self, frame: &Frame) -> Result<(), AllocError>
        requires stands { (x : Now) × Stands self.old x }
        requires kept { IsKept self.old }
        requires few { length self.old.nodes.items < 2 ^ 32 }
        requires work { self.old.work + frame.now.before < 2 ^ 128 }
        ensures stands { OnOk result ((x : Now) → Stands self.old x → Stands self.new (push_by x.frames frame.now x.work)) }
        ensures kept { OnOk result (IsKept self.new) }
        ensures chains { OnOk result (AreKept self.old.nodes.items self.new.nodes.items) }
        ensures count { OnOk result (length self.new.nodes.items ≡ length self.old.nodes.items + 1) }
        ensures work { self.new.work ≡ self.old.work }
    {
        self.enter(frame)?;
        self.keep()?;
        Ok(())
    }

    /// The returns of a part that close frames opened before it.
    fn close_all(&mut self, summary: &Summary)
        requires { (x : Now) × Stands self.old x × IsOpen (play_returns (entry_ops summary.now.burdens) summary.now.sum.returns x).frames × (peaks x.frames + load_returns summary.now.burdens summary.now.sum.returns < 2 ^ 127) }
        ensures stands { (x : Now) → Stands self.old x → IsOpen (play_returns (entry_ops summary.now.burdens) summary.now.sum.returns x).frames → Stands self.new (play_returns (entry_ops summary.now.burdens) summary.now.sum.returns x) }
        ensures nodes { self.new.nodes ≡ self.old.nodes }
        ensures work { self.new.work ≡ self.old.work }
    {
        let burdens = summary.burdens();
        for unmatched in summary.returns() {
            self.along(&unmatched.segs);
            self.close(burdens);
        }
    }

    /// The frames that a part leaves open.
    fn open_all(&mut self, summary: &Summary) -> Result<(), AllocError>
        requires stands { (x : Now) × Stands self.old x }
        requires kept { IsKept self.old }
        requires few { length self.old.nodes.items + length summary.now.sum.frames ≤ 2 ^ 32 }
        requires work { self.old.work + most_before summary.now.sum.frames < 2 ^ 128 }
        ensures stands { OnOk result ((x : Now) → Stands self.old x → Stands self.new (play_frames (entry_ops summary.now.burdens) summary.now.sum.frames x)) }
        ensures kept { OnOk result (IsKept self.new) }
        ensures chains { OnOk result (AreKept self.old.nodes.items self.new.nodes.items) }
        ensures count { OnOk result (length self.new.nodes.items ≡ length self.old.nodes.items + length summary.now.sum.frames) }
        ensures work { self.new.work ≡ self.old.work }
    {
        for frame in summary.inward_frames() {
            self.open(&frame)?;
        }
        Ok(())
    }

    /// A part.
    pub(crate) fn pass(&mut self, summary: &Summary) -> Result<(), AllocError>
        requires sound { summary.now.sum.fault ≡ None }
        requires stands { (x : Now) × Stands self.old x × IsOpen (play (entry_ops summary.now.burdens) summary.now.sum x).frames × (peaks x.frames + load summary.now.burdens summary.now.sum < 2 ^ 127) }
        requires few { length self.old.nodes.items + length summary.now.sum.frames < 2 ^ 32 }
        requires before { self.old.work + most_before summary.now.sum.frames < 2 ^ 128 }
        requires work { self.old.work + summary.now.sum.work < 2 ^ 128 }
        ensures stands { OnOk result ((x : Now) → Stands self.old x → IsOpen (play (entry_ops summary.now.burdens) summary.now.sum x).frames → Stands self.new (play (entry_ops summary.now.burdens) summary.now.sum x)) }
        ensures kept { OnOk result (IsKept self.new) }
        ensures chains { OnOk result (AreKept self.old.nodes.items self.new.nodes.items) }
        ensures count { OnOk result (length self.new.nodes.items ≡ length self.old.nodes.items + 1 + length summary.now.sum.frames) }
    {
        self.close_all(summary);
        self.along(&summary.middle());
        self.keep()?;
        self.open_all(summary)?;
        self.work += summary.work();
        Ok(())
    }
}
