//! The wires that functions share while they run, as counts that stop at the greatest `u64`.
ghost use Rattle.std.specs.Prelude.{◌≡◌};
ghost use Rattle.tw_frames.specs.Workspaces.{capped_workspace, no_workspace, shared};

/// The wires that functions share while they run.
#[derive(Debug, Clone, Copy, PartialEq, Eq)]
pub struct Workspace {
    /// The wires of the longest chain of frames, each of a function that the one before it calls.
    pub frames: u64,
    /// The scratch wires of the statement that needs most of them.
    pub scratch: u64,
}

impl Workspace {
    /// No function is entered.
    pub(crate) fn nothing() -> Workspace
        ensures { result ≡ no_workspace }
    {
        Workspace {
            frames: 0,
            scratch: 0,
        }
    }

    /// Two parts, one after the other, use the same wires.
    pub(crate) fn shared(self, rest: Workspace) -> Workspace
        ensures { result ≡ shared self rest }
    {
        Workspace {
            frames: self.frames.max(rest.frames),
            scratch: self.scratch.max(rest.scratch),
        }
    }
}
