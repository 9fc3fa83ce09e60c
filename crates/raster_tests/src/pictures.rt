// Hand-made pictures, the same as in expected.sh.
use raster::grid::*;
use sheets::sheet::Sheet;

const GREY: [u32; 15] = [0, 1, 2, 3, 4, 10, 32, 48, 80, 255, 254, 128, 127, 64, 9];

#[rattlefmt::skip]
const LINES: [u32; 30] = [
    1, 0, 1, 1, 0, 0, 0, 1, 0, 1,
    0, 1, 1, 0, 1, 0, 0, 0, 0, 0,
    1, 1, 1, 1, 0, 1, 0, 0, 1, 1,
];

const RGB: [u32; 6] = [0xff0000, 0x00ff00, 0x0000ff, 0x010203, 0x0a141e, 0xfafbfc];

const FOUR: [u32; 12] = [3, 0, 15, 8, 1, 2, 4, 7, 14, 13, 11, 9];

fn sheet(
    width: u32,
    height: u32,
    photometric: Photometric,
    bits: u16,
    pixels: &[u32],
) -> Sheet<'_> {
    Sheet::new(Size { width, height }, Kind { photometric, bits }, pixels)
}

pub fn grey() -> Sheet<'static> {
    sheet(5, 3, Photometric::BlackIsZero, 8, &GREY)
}

pub fn lines() -> Sheet<'static> {
    sheet(10, 3, Photometric::WhiteIsZero, 1, &LINES)
}

pub fn paper() -> Sheet<'static> {
    sheet(10, 3, Photometric::BlackIsZero, 1, &LINES)
}

pub fn rgb() -> Sheet<'static> {
    sheet(3, 2, Photometric::Rgb, 8, &RGB)
}

pub fn pale() -> Sheet<'static> {
    sheet(4, 3, Photometric::WhiteIsZero, 4, &FOUR)
}

pub fn white() -> Sheet<'static> {
    sheet(100, 2, Photometric::WhiteIsZero, 4, &[])
}
