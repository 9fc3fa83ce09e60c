// Extents of a file, and blocks that may share sectors with them.
ghost use Rattle.std.specs.Prelude.{◌≡◌, ◌+◌, ◌*◌, ◌^◌, ◌<◌, ◌≤◌, IfSome, IfNone, nat_le};
ghost use Rattle.octets.specs.Rows.{ceil};
ghost use Rattle.places.specs.Places.{behind, shares};

use entries::entry::Directory;

// The bytes of a sector.
pub const SECTOR: u64 = 512;

// Extents end below it: 2 ^ 38.
const LIMIT: u64 = 274877906944;

// How many sectors so many bytes take.
fn sectors(bytes: u64) -> u64
    ensures { result ≡ ceil bytes 512 }
{
    bytes.div_ceil(SECTOR)
}

// So many bytes from a place on.
#[derive(Clone, Copy)]
pub struct Extent {
    pub place: u64,
    pub count: u64,
    pub ghost near: { place + count < 2 ^ 38 },
}

impl Extent {
    ghost use Rattle.pages.specs.Extents.{directory_span};
    ghost use Rattle.places.specs.Search.{span_of, passed};

    // So many bytes from a place on, if they end below 2 ^ 38.
    pub fn near(place: u64, count: u64) -> Option<Extent>
        ensures some { IfSome result (λ x. (x.place ≡ place) × (x.count ≡ count) × (place + count < 2 ^ 38)) }
        ensures none { IfNone result (2 ^ 38 ≤ place + count) }
    {
        if place < LIMIT && count < LIMIT - place {
            Some(Extent { place, count })
        } else {
            None
        }
    }

    // A directory with its count, its entries and its link.
    pub fn of_directory(directory: Directory) -> Extent
        ensures { span_of result ≡ directory_span directory }
    {
        Extent {
            place: directory.place as u64,
            count: 6 + 12 * directory.entries as u64,
        }
    }

    // The first sector behind it.
    fn behind(self) -> u64
        ensures { result ≡ behind self.place self.count }
    {
        sectors(self.place + self.count)
    }

    // The place of a block of `len` bytes once the extent is looked at: behind it if they share a sector.
    pub fn pass(self, place: u64, len: u64) -> u64
        requires block { place + len < 2 ^ 40 }
        ensures value { result ≡ passed len place (span_of self) }
        ensures near { place < 2 ^ 39 → result < 2 ^ 39 }
    {
        Block { place, len }.pass(self).place
    }
}

// `len` bytes that are to stand from a place on.
#[derive(Clone, Copy)]
pub struct Block {
    pub place: u64,
    pub len: u64,
    pub ghost near: { place < 2 ^ 40 },
    pub ghost short: { len < 2 ^ 40 },
}

// A block of `len` bytes at a place ends within n bytes.
pub fn ends_by(place: u64, len: u64, n: u32) -> bool
    ensures { result ≡ nat_le (place + len) n }
{
    let n = n as u64;
    place <= n && len <= n - place
}

impl Block {
    ghost use Rattle.places.specs.Search.{span_of, passed};

    // The block of `len` bytes at a place, if it ends within n bytes.
    pub fn within(place: u64, len: u64, n: u32) -> Option<Block>
        ensures some { IfSome result (λ b. (b.place ≡ place) × (b.len ≡ len) × (place + len ≤ n)) }
        ensures none { IfNone result (n < place + len) }
    {
        if ends_by(place, len, n) {
            Some(Block { place, len })
        } else {
            None
        }
    }

    // The first sector behind it.
    fn behind(self) -> u64
        ensures { result ≡ behind self.place self.len }
    {
        sectors(self.place + self.len)
    }

    // Whether it has a byte in a sector in which an extent has one.
    fn shares(self, extent: Extent) -> bool
        ensures { result ≡ shares self.place self.len (span_of extent) }
    {
        self.len > 0
            && extent.count > 0
            && self.place / SECTOR < extent.behind()
            && extent.place / SECTOR < self.behind()
    }

    // The block once an extent is looked at: moved behind it if they share a sector.
    pub fn pass(self, extent: Extent) -> Block
        ensures place { result.place ≡ passed self.len self.place (span_of extent) }
        ensures len { result.len ≡ self.len }
        ensures near { self.place < 2 ^ 39 → result.place < 2 ^ 39 }
    {
        if self.shares(extent) {
            Block {
                place: SECTOR * extent.behind(),
                len: self.len,
            }
        } else {
            self
        }
    }
}
