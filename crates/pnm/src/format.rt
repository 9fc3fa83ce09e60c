// The Netpbm format of a picture: its head and its pixels.
ghost use Rattle.std.specs.Prelude.{◌≡◌, ℕ, ◌<◌, ◌≤◌, true, length};
ghost use Rattle.raster.specs.Picture.{allowed, levels, number_of};
ghost use Rattle.pnm.specs.Netpbm.{largest, grey, head, pixel_bytes};

use crate::cursor::*;
use crate::layout::Layout;
use raster::grid::*;

// The format of the files of an allowed kind of pixels.
#[derive(Clone, Copy, PartialEq, Eq, Debug)]
pub struct Format {
    pub kind: Kind,
    pub ghost allowed: { allowed kind ≡ true },
}

impl Format {
    ghost use Rattle.pnm.specs.Cursors.{HasRoom, Wrote};

    // The largest value that is printed.
    pub fn largest(self) -> u32
        ensures value { result ≡ largest self.kind }
        ensures byte { result < 256 }
    {
        match self.kind.bits {
            1 => 1,
            4 => 15,
            _ => 255,
        }
    }

    // A sample counted from black.
    pub fn grey(self, sample: u32) -> u8
        requires grey { number_of self.kind.photometric < 2 }
        requires sample { sample < levels self.kind }
        ensures { result ≡ grey self.kind sample }
    {
        match self.kind.photometric {
            Photometric::WhiteIsZero => (self.largest() - sample) as u8,
            _ => sample as u8,
        }
    }

    // Writes a grey or an RGB pixel.
    pub fn put_pixel(self, v: u32, out: &mut Cursor<'_>)
        requires value { v < levels self.kind }
        requires room { HasRoom out.old (pixel_bytes self.kind v) }
        ensures { Wrote out.old (pixel_bytes self.kind v) out.new }
    {
        match Layout::of(self.kind) {
            Layout::Pixmap => {
                let [_, red, green, blue] = v.to_be_bytes();
                out.put_byte(red);
                out.put_byte(green);
                out.put_byte(blue);
            }
            _ => out.put_byte(self.grey(v)),
        }
    }

    // The bytes of a head.
    pub fn head_len(self, size: Size) -> usize
        ensures len { result ≡ length (head size.width size.height self.kind) }
        ensures short { result ≤ 36 }
    {
        let sides = decimal_len(size.width) + 1 + decimal_len(size.height) + 1;
        match Layout::of(self.kind) {
            Layout::Bitmap => 3 + sides,
            _ => 3 + sides + decimal_len(self.largest()) + 1,
        }
    }

    // Writes the head.
    pub fn put_head(self, size: Size, out: &mut Cursor<'_>)
        requires { HasRoom out.old (head size.width size.height self.kind) }
        ensures { Wrote out.old (head size.width size.height self.kind) out.new }
    {
        let layout = Layout::of(self.kind);
        out.put_byte(b'P');
        out.put_byte(layout.digit());
        out.put_byte(b'\n');
        out.put_number(size.width, b' ');
        out.put_number(size.height, b'\n');
        match layout {
            Layout::Bitmap => {}
            _ => out.put_number(self.largest(), b'\n'),
        }
    }
}
