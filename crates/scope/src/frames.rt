// A walk's way back: frames in the machine's memory, one for each node with parts still to come.
ghost use Rattle.std.specs.Prelude.{◌≡◌, ◌<◌};
ghost use Rattle.scope.specs.Frames.{frame_told, frame_at, frame_put, next_told, next_frame};

use crate::renaming::Scope;
use expr::node::Holder;
use memory::layout::Frames;

// At most so many are open: each means a part still to come, which has nine bytes at least.
pub const MAX_FRAMES: usize = 8192;

// Words by index, in lent memory: `as_chunks_mut` was tried, and says nothing of what the words hold afterwards.
const FRAME_WORDS: usize = 5;

#[derive(Clone, Copy, Debug, PartialEq, Eq)]
pub struct Frame {
    // Who holds the next part.
    pub holder: Holder,
    // How many parts there are in all.
    pub parts: usize,
    // The scope around the node.
    pub around: Scope,
}

impl Frame {
    // With the part after its next one to come; none where that was the last.
    pub fn next(self) -> Option<Frame>
        ensures { next_told result ≡ next_frame (frame_told self) }
    {
        if self.parts.saturating_sub(self.holder.part) <= 1 {
            return None;
        }
        let mut next = self;
        next.holder.part += 1;
        Some(next)
    }

    pub fn put(self, frames: &mut Frames, index: usize)
        requires { index < 8192 }
        ensures { frames.new ≡ frame_put frames.old index (frame_told self) }
    {
        let at = index * FRAME_WORDS;
        frames[at] = self.holder.at as u64;
        frames[at + 1] = self.holder.part as u64;
        frames[at + 2] = self.parts as u64;
        frames[at + 3] = u64::from(self.around.old);
        frames[at + 4] = u64::from(self.around.new);
    }

    pub fn at(frames: &Frames, index: usize) -> Frame
        requires { index < 8192 }
        ensures { frame_told result ≡ frame_at frames.now index }
    {
        let at = index * FRAME_WORDS;
        Frame {
            holder: Holder {
                at: frames[at] as usize,
                part: frames[at + 1] as usize,
            },
            parts: frames[at + 2] as usize,
            around: Scope {
                old: frames[at + 3] != 0,
                new: frames[at + 4] != 0,
            },
        }
    }
}
