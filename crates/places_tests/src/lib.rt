// The places of drafts beside small sheets made by hand.
#![tactic(auto)]

ghost use Rattle.std.specs.Prelude.{◌+◌, ◌≤◌};

#[cfg(test)]
mod tests {
    use places::search::find_place;
    use store::slices::Chip;
    use stored::page::Page;

    // The entries of a grey sheet of 3 by 2 pixels of 8 bits in one strip: the tag, the type and the value of each.
    // The places under 273, 282 and 283 are filled in by `sheet`.
    const ENTRIES: [(u16, u16, u16); 12] = [
        (256, 4, 3),
        (257, 4, 2),
        (258, 3, 8),
        (259, 3, 1),
        (262, 3, 1),
        (273, 4, 0),
        (277, 3, 1),
        (278, 4, 2),
        (279, 4, 6),
        (282, 5, 0),
        (283, 5, 0),
        (296, 3, 1),
    ];

    // Two bytes, the low one first.
    fn put(bytes: &mut [u8; 2048], place: usize, value: u16)
        requires { place + 2 ≤ 2048 }
    {
        bytes[place..place + 2].copy_from_slice(&value.to_le_bytes());
    }

    // An entry of one value.
    fn put_entry(bytes: &mut [u8; 2048], place: usize, tag: u16, kind: u16, value: u16)
        requires { place + 12 ≤ 2048 }
    {
        put(bytes, place, tag);
        put(bytes, place + 2, kind);
        put(bytes, place + 4, 1);
        put(bytes, place + 8, value);
    }

    // The sheet as a block at a place: 12 entries, two RATIONALs and the strip, 172 bytes in all.
    fn sheet(place: u16) -> [u8; 2048]
        requires { place ≤ 1024 }
    {
        let mut bytes = [0u8; 2048];
        bytes[0] = b'I';
        bytes[1] = b'I';
        bytes[2] = 42;
        put(&mut bytes, 4, place);
        let start = place as usize;
        put(&mut bytes, start, 12);
        for (i, (tag, kind, value)) in ENTRIES.iter().enumerate() {
            put_entry(&mut bytes, start + 2 + 12 * i, *tag, *kind, *value);
        }
        put(&mut bytes, start + 70, place + 166);
        put(&mut bytes, start + 118, place + 150);
        put(&mut bytes, start + 130, place + 158);
        bytes
    }

    // The place of a block of `len` bytes beside page 0 of the first n bytes, if the page is accepted.
    fn found(bytes: &[u8; 2048], n: usize, len: u64) -> Option<Option<u32>>
        requires { n ≤ 2048 }
    {
        let mut chip = Chip::new(&bytes[..n]);
        let page = Page::open(&mut chip, 0).ok()?;
        Some(find_place(&mut chip, page, len))
    }

    #[test]
    fn first_draft(rt: HostRuntime) {
        assert_eq!(rt; found(&sheet(8), 684, 172), Some(Some(512)));
        assert_eq!(rt; found(&sheet(8), 683, 172), Some(None));
    }

    #[test]
    fn next_draft(rt: HostRuntime) {
        assert_eq!(rt; found(&sheet(512), 1196, 172), Some(Some(1024)));
        assert_eq!(rt; found(&sheet(512), 1195, 172), Some(None));
    }

    #[test]
    fn draft_after_that(rt: HostRuntime) {
        assert_eq!(rt; found(&sheet(1024), 1196, 172), Some(Some(512)));
    }

    #[test]
    fn larger_than_a_gap(rt: HostRuntime) {
        assert_eq!(rt; found(&sheet(1024), 2048, 512), Some(Some(512)));
        assert_eq!(rt; found(&sheet(1024), 2048, 513), Some(None));
        assert_eq!(rt; found(&sheet(512), 2048, 1024), Some(Some(1024)));
        assert_eq!(rt; found(&sheet(512), 2048, 1025), Some(None));
        assert_eq!(rt; found(&sheet(512), 2048, 18446744073709551615), Some(None));
    }

    // The value of 282, which no check looks at, moved to other sectors.
    #[test]
    fn unlisted_value(rt: HostRuntime) {
        let mut bytes = sheet(8);
        put(&mut bytes, 126, 600);
        assert_eq!(rt; found(&bytes, 2048, 172), Some(Some(1024)));
        put(&mut bytes, 126, 1016);
        assert_eq!(rt; found(&bytes, 2048, 172), Some(Some(1024)));
        put(&mut bytes, 126, 1018);
        assert_eq!(rt; found(&bytes, 2048, 172), Some(Some(1536)));
        put(&mut bytes, 126, 1024);
        assert_eq!(rt; found(&bytes, 2048, 172), Some(Some(512)));
    }

    // A value that does not lie wholly in the store is no extent, nor is one of a number that is no type.
    #[test]
    fn no_extent(rt: HostRuntime) {
        let mut bytes = sheet(8);
        put(&mut bytes, 126, 1017);
        assert_eq!(rt; found(&bytes, 1025, 172), Some(None));
        assert_eq!(rt; found(&bytes, 1024, 172), Some(Some(512)));
        put(&mut bytes, 126, 600);
        put(&mut bytes, 120, 13);
        assert_eq!(rt; found(&bytes, 2048, 172), Some(Some(512)));
    }

    // The strip moved to other sectors.
    #[test]
    fn strip(rt: HostRuntime) {
        let mut bytes = sheet(8);
        put(&mut bytes, 78, 1018);
        assert_eq!(rt; found(&bytes, 2048, 172), Some(Some(1024)));
        put(&mut bytes, 78, 1019);
        assert_eq!(rt; found(&bytes, 2048, 172), Some(Some(1536)));
        assert_eq!(rt; found(&bytes, 1707, 172), Some(None));
    }

    #[test]
    fn refused_page(rt: HostRuntime) {
        let mut bytes = sheet(8);
        put(&mut bytes, 4, 0);
        assert_eq!(rt; found(&bytes, 2048, 172), None);
    }
}
