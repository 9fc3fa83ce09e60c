// Bytes and numbers written into a buffer, one after another.
ghost use Rattle.std.specs.Prelude.{◌≡◌, ◌≤◌, [], ◌∷◌, length, decimal, nat_lt};
ghost use Rattle.pnm.specs.Netpbm.{numeral};
ghost use Rattle.pnm.specs.Cursors.{HasRoom, Wrote};

// A buffer, and the place in it where the next byte goes.
#[derive(Drop)]
pub struct Cursor<'b> {
    pub buffer: &'b mut [u8],
    pub place: usize,
}

// Whether n has one decimal digit.
fn is_digit(n: u32) -> bool
    ensures { result ≡ nat_lt n 10 }
{
    n < 10
}

// How many decimal digits n has.
pub fn decimal_len(n: u32) -> usize
    ensures len { result ≡ length (decimal n) }
    ensures short { result ≤ 10 }
{
    n.max(1).ilog10() as usize + 1
}

impl<'b> Cursor<'b> {
    pub fn put_byte(&mut self, b: u8)
        requires { HasRoom self.old (b ∷ []) }
        ensures { Wrote self.old (b ∷ []) self.new }
    {
        self.buffer[self.place] = b;
        self.place += 1;
    }

    // The decimal digits of n.
    pub fn put_decimal(&mut self, n: u32)
        requires { HasRoom self.old (decimal n) }
        ensures { Wrote self.old (decimal n) self.new }
    {
        if is_digit(n) {
            return self.put_byte(b'0' + n as u8);
        }
        self.put_decimal(n / 10);
        self.put_byte(b'0' + (n % 10) as u8);
    }

    // The decimal digits of n, and the byte that ends them.
    pub fn put_number(&mut self, n: u32, end: u8)
        requires { HasRoom self.old (numeral n end) }
        ensures { Wrote self.old (numeral n end) self.new }
    {
        self.put_decimal(n);
        self.put_byte(end);
    }
}
