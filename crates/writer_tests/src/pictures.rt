// Hand-made pictures, the same as in expected.py.
use raster::grid::*;
use sheets::sheet::Sheet;

const GREY: [u32; 6] = [1, 2, 3, 4, 5, 6];

#[rattlefmt::skip]
const LINES: [u32; 30] = [
    1, 0, 1, 1, 0, 0, 0, 1, 0, 1,
    0, 1, 1, 0, 1, 0, 0, 0, 0, 0,
    1, 1, 1, 1, 0, 1, 0, 0, 1, 1,
];

const FOUR: [u32; 15] = [3, 0, 15, 8, 5, 1, 2, 4, 7, 6, 14, 13, 11, 9, 10];

fn sheet(
    width: u32,
    height: u32,
    photometric: Photometric,
    bits: u16,
    pixels: &[u32],
) -> Sheet<'_> {
    Sheet::new(Size { width, height }, Kind { photometric, bits }, pixels)
}

pub fn grey() -> Sheet<'static> {
    sheet(3, 2, Photometric::BlackIsZero, 8, &GREY)
}

pub fn lines() -> Sheet<'static> {
    sheet(10, 3, Photometric::WhiteIsZero, 1, &LINES)
}

pub fn four() -> Sheet<'static> {
    sheet(5, 3, Photometric::BlackIsZero, 4, &FOUR)
}

// So many rows of one pixel.
pub fn column(height: u32) -> Sheet<'static> {
    sheet(1, height, Photometric::BlackIsZero, 8, &GREY)
}

// The pixels of an RGB picture 20 by 20: 12 x, 12 y and 6 x + y at column x, row y.
pub fn rgb_pixels() -> [u32; 400] {
    let mut pixels = [0; 400];
    for (i, pixel) in pixels.iter_mut().enumerate() {
        let x = (i % 20) as u32;
        let y = (i / 20) as u32;
        *pixel = 65536 * (12 * x) + 256 * (12 * y) + (6 * x + y);
    }
    pixels
}

pub fn rgb(pixels: &[u32]) -> Sheet<'_> {
    sheet(20, 20, Photometric::Rgb, 8, pixels)
}
