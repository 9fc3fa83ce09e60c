// The outlines of drafts that can be made.
ghost use Rattle.std.specs.Prelude.{◌≡◌, ◌≤◌};
ghost use Rattle.plans.specs.Outlines.{Proper, segments_in, segment_size, bits_size, longs_size, head_size, block_size};

use crate::outline::*;

// The outline of a draft of at most 1,024 segments, of a picture that is not empty.
#[derive(Clone, Copy)]
pub struct DraftOutline {
    pub outline: Outline,
    pub ghost proper: { Proper outline },
    pub ghost few: { segments_in outline ≤ 1024 },
}

impl DraftOutline {
    // How many segments there are.
    pub fn segments(self) -> u32
        ensures value { result ≡ segments_in self.outline }
        ensures few { result ≤ 1024 }
    {
        self.outline.segments() as u32
    }

    // The bytes of segment k.
    pub fn segment_size(self, k: u32) -> u32
        ensures { result ≡ segment_size self.outline k }
    {
        self.outline.segment_size(k)
    }

    // The bytes after the directory of one LONG a segment.
    pub fn longs_size(self) -> u32
        ensures value { result ≡ longs_size (segments_in self.outline) }
        ensures few { result ≤ 4096 }
    {
        longs_size(self.segments())
    }

    // The bytes before the first segment.
    pub fn head_size(self) -> u32
        ensures { result ≡ head_size self.outline }
    {
        self.outline.head_size()
    }

    // The bytes of the draft.
    pub fn size(self) -> u64
        ensures { result ≡ block_size self.outline }
    {
        self.outline.size()
    }
}
