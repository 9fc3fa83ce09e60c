// The directories of a file.
ghost use Rattle.std.specs.Prelude.{◌≡◌, length};
ghost use Rattle.links.specs.Links.{places_of, placed};

use faults::fault::{Check, Fault};
use octets::endian::Endian;

// A file has at most this many directories.
pub const MOST: usize = 32;

// A file's byte order, how many directories it has, and their places; zeros after the last.
#[derive(Clone, Copy)]
pub struct Directories {
    pub endian: Endian,
    pub count: u32,
    pub places: [u32; MOST],
}

impl Directories {
    // How many places are held, of the 32 that the array has.
    pub fn count(&self) -> u32
        ensures held { result ≡ length (places_of self.now) }
        ensures whole { length self.now.places ≡ 32 }
    {
        self.count.min(MOST as u32)
    }

    // The place of a page's directory, refused as Page if there is none.
    pub fn place(&self, page: u32) -> Result<u32, Fault>
        ensures { result ≡ placed self.now page }
    {
        if page >= self.count || page as usize >= MOST {
            return Err(Check::Page.fault());
        }
        Ok(self.places[page as usize])
    }
}
