//! The first wires of names and paths.
ghost use Rattle.std.specs.Prelude.{◌≡◌};
ghost use Rattle.tw_syntax.specs.Names.{path_tree};
ghost use Rattle.tw_frames.specs.Found.{setting_of};
ghost use Rattle.tw_lower.specs.FrameWires.{plain_frame};
ghost use Rattle.tw_lower.specs.Operands.{path_wire};

use crate::frame::FrameWires;
use crate::paths::part_offset;
use tw_syntax::Path;

impl<'c, 'a> FrameWires<'c, 'a> {
    /// The first wire of a name; the first wire of the `if`s for a name that the function does not have.
    pub fn wire(&self, name: &str) -> u32
        ensures { result ≡ (plain_frame self.now).wire name.now }
    {
        match self.names.get(name) {
            Some(wire) => wire,
            None => self.ifs,
        }
    }

    /// The first wire of a path.
    pub fn path_wire(&self, path: &Path<'_>) -> u32
        ensures { result ≡ path_wire (setting_of self.now.body) (plain_frame self.now) (path_tree path.now) }
    {
        let program = self.body.program;
        let first = self.wire(path.root.text);
        match program.type_of(self.body.fun, path.root.text) {
            Some(ty) => first + part_offset(program.widths(), path.steps, &ty) as u32,
            None => first,
        }
    }
}
