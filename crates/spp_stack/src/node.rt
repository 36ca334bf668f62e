//! An open frame as a node.

ghost use Rattle.std.specs.Prelude.{◌≡◌};
ghost use Rattle.spp_stack.specs.Chain.{opens_site};

use spp_dag::{EntryFrame, FrameKind};

/// An open frame, as it stands where some part begins, over those that enclose it.
#[derive(Clone, Copy, Debug, PartialEq, Eq)]
pub struct Node {
    /// The frame.
    pub frame: EntryFrame,
    /// The number of the node of the frame directly below it, its caller or spawner; it is less than this node's own.
    /// None at the root.
    pub below: Option<u32>,
    /// How many frames are below it: 0 at the root.
    pub depth: u32,
    /// No frame below it runs its function.
    pub top_func: bool,
    /// The number of the nearest node below this one whose frame is the lowest that was entered by its site; the root
    /// doesn't count. None if there's no such one.
    pub(crate) site_link: Option<u32>,
    /// The number of the nearest node below this one whose frame is the lowest that runs its function. None at the
    /// root.
    pub(crate) func_link: Option<u32>,
}

impl Node {
    /// Whether the frame is the lowest that was entered by its site; the root was entered by none.
    pub(crate) fn opens_site(&self) -> bool
        ensures { result ≡ opens_site self.now }
    {
        match self.frame.kind {
            FrameKind::Root => false,
            FrameKind::Called | FrameKind::Spawned => self.frame.top_site,
        }
    }
}
