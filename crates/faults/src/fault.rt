// The check that refuses a call.
#[derive(Clone, Copy, PartialEq, Eq, Debug)]
pub enum Check {
    // The bytes asked for go past the end of the store.
    Past = 1,
    // A draft is out: one was begun, and neither kept nor scrapped since.
    Busy = 3,
    // The store is shorter than a header.
    Short = 4,
    // The first four bytes are those of neither byte order.
    Magic = 5,
    // A link leads to no place where a directory can stand.
    Link = 6,
    // A link leads to a directory that was met before.
    Cycle = 7,
    // There are more directories than 32.
    Chain = 8,
    // A directory has no entry, or more than 64.
    Count = 9,
    // A directory goes past the end of the store.
    Torn = 10,
    // The file has no such page.
    Page = 11,
    // An entry's tag is not above the one before it.
    Order = 12,
    // A listed tag has another type or count than it must have.
    Field = 13,
    // A listed tag's values do not lie where they may.
    Value = 14,
    // A tag that the page needs is absent.
    Missing = 15,
    // The page's kind is none that is read here.
    Kind = 17,
    // A side is outside its limits.
    Size = 18,
    // The offsets or the byte counts are not one a segment, or there are too many segments.
    Tally = 19,
    // A segment does not hold what it needs.
    Segment = 20,
    // A pixel or a rectangle lies outside the picture.
    Outside = 21,
    // The buffer is too short.
    Small = 22,
    // No page is shown.
    Closed = 23,
    // The file has several directories.
    Pages = 24,
    // The view is no rectangle of the picture, or its turn is none.
    View = 25,
    // The plan is outside its limits.
    Plan = 26,
    // The draft would have too many segments.
    Many = 27,
    // There is no room for the draft.
    Space = 28,
    // The draft is not at the stage that the call needs.
    Stage = 29,
}

// A failed check, with the page, the tag and the place that it names, each 0 where it names none.
#[derive(Clone, Copy, PartialEq, Eq, Debug)]
pub struct Fault {
    pub check: Check,
    pub page: u32,
    pub tag: u16,
    pub place: u32,
}
