// What each refusal means, in words.
use faults::fault::Check;

// A check prints as its name, in the crate that it belongs to: the words stand here.
pub fn meaning(check: Check) -> &'static str {
    match check {
        Check::Past => "the bytes asked for go past the end",
        Check::Busy => "a draft is out: keep or scrap it first",
        Check::Short => "the file is shorter than a header of 8 bytes",
        Check::Magic => "the first four bytes are neither II nor MM with 42",
        Check::Link => "a link leads to no place where a directory can stand",
        Check::Cycle => "a link leads back to a directory met before",
        Check::Chain => "there are more than 32 directories",
        Check::Count => "a directory has no entry, or more than 64",
        Check::Torn => "a directory goes past the end of the file",
        Check::Page => "the file has no such page",
        Check::Order => "an entry's tag is not above the one before it",
        Check::Field => "a tag has another type or count than it must have",
        Check::Value => "a tag's values do not lie within the file as they must",
        Check::Missing => "a tag that the page needs is absent",
        Check::Kind => "the page is of a kind that is not read here",
        Check::Size => "a side is outside its limits",
        Check::Tally =>
            "there is not one offset and one byte count a segment, or there are too many segments",
        Check::Segment => "a segment does not hold what it needs, or lies outside the file",
        Check::Outside => "a pixel or a rectangle lies outside the picture",
        Check::Small => "the buffer is too short",
        Check::Closed => "no page is shown",
        Check::Pages => "the file has several pages",
        Check::View => "the view is no rectangle of the picture, or its turn is not 1 to 8",
        Check::Plan => "the plan is outside its limits",
        Check::Many => "the draft would have more than 1,024 segments",
        Check::Space => "there is no room for the draft",
        Check::Stage => "the draft is not at the stage that the call needs",
    }
}
