// What stands before the pixels of a draft, byte by byte.
ghost use Rattle.std.specs.Prelude.{◌≡◌, ◌+◌, ◌-◌, ◌*◌, ◌<◌, ◌≤◌};
ghost use Rattle.std.specs.List.{flat_map};
ghost use Rattle.octets.specs.Rows.{byte};
ghost use Rattle.plans.specs.Outlines.{head_size, directory_size, entries_in};
ghost use Rattle.plans.specs.Directories.{outer_bytes, entries_bytes, directory_bytes};
ghost use Rattle.plans.specs.Blocks.{fields_in};
ghost use Rattle.heads.specs.Values.{bits_at};

use crate::contents::entry_byte;
use crate::numbers::number_byte;
use plans::draft::DraftOutline;

// What stands before the pixels of a draft at a place: its directory and the values after it.
#[derive(Clone, Copy)]
pub struct Head {
    pub draft: DraftOutline,
    pub place: u32,
}

impl Head {
    // Byte i.
    pub fn byte(self, i: u32) -> u8
        requires { i < head_size self.draft.outline }
        ensures { result ≡ byte (directory_bytes self.draft.outline.endian self.place (fields_in self.draft.outline self.place)) i }
    {
        let end = self.bits_at();
        if i < 2 {
            number_byte(self.draft.outline.endian, 2, self.tags().len() as u64, i)
        } else if i < end - 4 {
            self.entries_byte(i - 2)
        } else if i < end {
            0
        } else {
            self.value_byte(i)
        }
    }

    // Byte j of the entries of the directory.
    fn entries_byte(self, j: u32) -> u8
        requires { j < 12 * entries_in self.draft.outline }
        ensures { result ≡ byte (entries_bytes self.draft.outline.endian (self.place + directory_size (entries_in self.draft.outline)) (fields_in self.draft.outline self.place)) j }
    {
        let endian = self.draft.outline.endian;
        let tag = self.tags()[(j / 12) as usize];
        entry_byte(endian, tag.number(), self.content(tag), j % 12)
    }

    // Byte i of the values after the directory, counted from the draft's first byte.
    fn value_byte(self, i: u32) -> u8
        requires behind { bits_at self.draft.outline ≤ i }
        requires within { i < head_size self.draft.outline }
        ensures { result ≡ byte (flat_map (outer_bytes self.draft.outline.endian) (fields_in self.draft.outline self.place)) (i - bits_at self.draft.outline) }
    {
        let outline = self.draft.outline;
        let endian = outline.endian;
        let bits = self.bits_at();
        let offsets = self.offsets_at();
        let counts = self.counts_at();
        if i < bits + outline.bits_size() {
            number_byte(endian, 2, outline.kind.bits as u64, (i - bits) % 2)
        } else if i >= offsets && i < counts {
            let k = (i - offsets) / 4;
            number_byte(endian, 4, self.offset_of(k), (i - offsets) % 4)
        } else if i >= counts && i < counts + self.draft.longs_size() {
            let k = (i - counts) / 4;
            number_byte(endian, 4, self.count_of(k), (i - counts) % 4)
        } else {
            number_byte(endian, 4, 1, (i - self.ratios_at()) % 4)
        }
    }
}
