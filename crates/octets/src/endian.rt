// The byte order of a file: II has the low byte first, MM the high byte.
#[derive(Clone, Copy, PartialEq, Eq, Debug)]
pub enum Endian {
    Little,
    Big,
}
