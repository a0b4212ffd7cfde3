// How far a walk is.
ghost use Rattle.std.specs.Prelude.{◌≤◌};

use crate::renaming::Scope;
use expr::node::Holder;

#[derive(Clone, Copy, Debug, PartialEq, Eq)]
pub struct Walk {
    // Where the next expression begins, who holds it, and the scope around that.
    pub at: usize,
    pub holder: Option<Holder>,
    pub around: Scope,
    // How many frames are open, and how many uses are listed.
    pub frames: usize,
    pub uses: usize,
    pub ghost few_frames: { frames ≤ 8192 },
    pub ghost few_uses: { uses ≤ 8192 },
}
