// Small files by hand, walked along their directories.
#![tactic(auto)]

ghost use Rattle.std.specs.Prelude.{◌≤◌};

#[cfg(test)]
mod tests {
    use faults::fault::{Check, Fault};
    use links::directories::Directories;
    use links::walk::walk;
    use octets::endian::Endian;
    use std::test::Fail;
    use store::slices::Chip;

    // One directory of one entry, in either byte order; the dots are its entry.
    const ONE_II: [u8; 26] = *b"II*\0\x08\0\0\0\x01\0............\0\0\0\0";

    const ONE_MM: [u8; 26] = *b"MM\0*\0\0\0\x08\0\x01............\0\0\0\0";

    // Two directories of one entry each, at 8 and 26.
    const TWO_II: [u8; 44] =
        *b"II*\0\x08\0\0\0\x01\0............\x1A\0\0\0\x01\0............\0\0\0\0";

    const TWO_MM: [u8; 44] =
        *b"MM\0*\0\0\0\x08\0\x01............\0\0\0\x1A\0\x01............\0\0\0\0";

    // The fault with which a walk is refused.
    fn refusal(bytes: &[u8]) -> Option<Fault> {
        walk(&mut Chip::new(bytes)).err()
    }

    // The directories that a walk finds.
    fn found(bytes: &[u8]) -> Option<Directories> {
        walk(&mut Chip::new(bytes)).ok()
    }

    // A chain of directories of one entry each, the first at 8, each 18 bytes after the one before.
    fn chain(count: usize) -> [u8; 602]
        requires { count ≤ 33 }
    {
        let mut bytes = [0u8; 602];
        bytes[..5].copy_from_slice(b"II*\0\x08");
        let end = 8 + 18 * count;
        for place in (8..end).step_by(18) {
            bytes[place] = 1;
            let next = place + 18;
            if next < end {
                bytes[place + 14..place + 16].copy_from_slice(&(next as u16).to_le_bytes());
            }
        }
        bytes
    }

    #[test]
    fn one_low_byte_first(rt: HostRuntime) -> Result<(), Fail> {
        let d = found(&ONE_II).ok_or("refused")?;
        assert_eq!(rt; d.endian, Endian::Little);
        assert_eq!(rt; d.count, 1);
        assert_eq!(rt; d.count(), 1);
        assert_eq!(rt; d.place(0), Ok(8));
        assert_eq!(rt; d.place(1), Err(Check::Page.fault()));
        assert_eq!(rt; d.places[1], 0);
        Ok(())
    }

    #[test]
    fn one_high_byte_first(rt: HostRuntime) -> Result<(), Fail> {
        let d = found(&ONE_MM).ok_or("refused")?;
        assert_eq!(rt; d.endian, Endian::Big);
        assert_eq!(rt; d.count, 1);
        assert_eq!(rt; d.place(0), Ok(8));
        Ok(())
    }

    #[test]
    fn two_in_both_orders(rt: HostRuntime) -> Result<(), Fail> {
        let little = found(&TWO_II).ok_or("refused")?;
        assert_eq!(rt; little.count, 2);
        assert_eq!(rt; little.place(0), Ok(8));
        assert_eq!(rt; little.place(1), Ok(26));
        assert_eq!(rt; little.place(2), Err(Check::Page.fault()));
        let big = found(&TWO_MM).ok_or("refused")?;
        assert_eq!(rt; big.count, 2);
        assert_eq!(rt; big.place(0), Ok(8));
        assert_eq!(rt; big.place(1), Ok(26));
        Ok(())
    }

    #[test]
    fn thirty_two(rt: HostRuntime) -> Result<(), Fail> {
        let d = found(&chain(32)).ok_or("refused")?;
        assert_eq!(rt; d.count, 32);
        assert_eq!(rt; d.place(31), Ok(566));
        assert_eq!(rt; d.place(32), Err(Check::Page.fault()));
        Ok(())
    }

    #[test]
    fn a_thirty_third(rt: HostRuntime) {
        assert_eq!(rt;
            refusal(&chain(33)),
            Some(Check::Chain.fault_at(32, 0, 580))
        );
    }

    #[test]
    fn no_header(rt: HostRuntime) {
        assert_eq!(rt; refusal(b""), Some(Check::Short.fault()));
        assert_eq!(rt; refusal(b"II*\0\x08\0\0"), Some(Check::Short.fault()));
        assert_eq!(rt;
            refusal(b"II*\0\x08\0\0\0"),
            Some(Check::Link.fault_at(0, 0, 4))
        );
    }

    #[test]
    fn neither_order(rt: HostRuntime) {
        let mut bytes = ONE_II;
        bytes[1] = b'M';
        assert_eq!(rt; refusal(&bytes), Some(Check::Magic.fault()));
        let mut swapped = ONE_MM;
        swapped.swap(2, 3);
        assert_eq!(rt; refusal(&swapped), Some(Check::Magic.fault()));
    }

    #[test]
    fn first_link(rt: HostRuntime) {
        let mut bytes = ONE_II;
        bytes[4] = 0;
        assert_eq!(rt; refusal(&bytes), Some(Check::Link.fault_at(0, 0, 4)));
        bytes[4] = 6;
        assert_eq!(rt; refusal(&bytes), Some(Check::Link.fault_at(0, 0, 4)));
        bytes[4] = 9;
        assert_eq!(rt; refusal(&bytes), Some(Check::Link.fault_at(0, 0, 4)));
        bytes[4] = 26;
        assert_eq!(rt; refusal(&bytes), Some(Check::Link.fault_at(0, 0, 4)));
        bytes[4] = 24;
        assert_eq!(rt; refusal(&bytes), Some(Check::Count.fault_at(0, 0, 24)));
        bytes[4..8].fill(0xFF);
        assert_eq!(rt; refusal(&bytes), Some(Check::Link.fault_at(0, 0, 4)));
    }

    #[test]
    fn later_link(rt: HostRuntime) -> Result<(), Fail> {
        let mut bytes = TWO_II;
        bytes[22] = 4;
        assert_eq!(rt; refusal(&bytes), Some(Check::Link.fault_at(1, 0, 22)));
        bytes[22] = 0;
        assert_eq!(rt; found(&bytes).ok_or("refused")?.count, 1);
        Ok(())
    }

    #[test]
    fn met_before(rt: HostRuntime) {
        let mut bytes = TWO_II;
        bytes[40] = 8;
        assert_eq!(rt; refusal(&bytes), Some(Check::Cycle.fault_at(2, 0, 40)));
        bytes[40] = 26;
        assert_eq!(rt; refusal(&bytes), Some(Check::Cycle.fault_at(2, 0, 40)));
        let mut full = chain(32);
        full[580] = 8;
        assert_eq!(rt; refusal(&full), Some(Check::Cycle.fault_at(32, 0, 580)));
    }

    #[test]
    fn entries(rt: HostRuntime) -> Result<(), Fail> {
        let mut bytes = TWO_MM;
        bytes[27] = 0;
        assert_eq!(rt; refusal(&bytes), Some(Check::Count.fault_at(1, 0, 26)));
        bytes[27] = 65;
        assert_eq!(rt; refusal(&bytes), Some(Check::Count.fault_at(1, 0, 26)));
        let mut most = [0u8; 782];
        most[..9].copy_from_slice(b"II*\0\x08\0\0\0\x40");
        assert_eq!(rt; found(&most).ok_or("refused")?.count, 1);
        Ok(())
    }

    #[test]
    fn cut_off(rt: HostRuntime) {
        assert_eq!(rt;
            refusal(&ONE_II[0..25]),
            Some(Check::Torn.fault_at(0, 0, 8))
        );
        assert_eq!(rt;
            refusal(&TWO_II[0..43]),
            Some(Check::Torn.fault_at(1, 0, 26))
        );
        let mut bytes = ONE_II;
        bytes[8] = 2;
        assert_eq!(rt; refusal(&bytes), Some(Check::Torn.fault_at(0, 0, 8)));
    }
}
