// The number and the name of each check, and the making of faults.
ghost use Rattle.std.specs.Prelude.{◌≡◌};
ghost use Rattle.faults.specs.Faults.{report, fault, bare};

use crate::fault::{Check, Fault};

impl Check {
    // The number under which a refusal is reported.
    pub fn number(self) -> u8
        ensures { result ≡ (report self).number }
    {
        self as u8
    }

    // The name under which a refusal is reported. A derived Debug prints it too, but promises nothing that a proof can use.
    pub fn name(self) -> &'static str
        ensures { result.now ≡ (report self).name }
    {
        match self {
            Check::Past => "Past",
            Check::Busy => "Busy",
            Check::Short => "Short",
            Check::Magic => "Magic",
            Check::Link => "Link",
            Check::Cycle => "Cycle",
            Check::Chain => "Chain",
            Check::Count => "Count",
            Check::Torn => "Torn",
            Check::Page => "Page",
            Check::Order => "Order",
            Check::Field => "Field",
            Check::Value => "Value",
            Check::Missing => "Missing",
            Check::Kind => "Kind",
            Check::Size => "Size",
            Check::Tally => "Tally",
            Check::Segment => "Segment",
            Check::Outside => "Outside",
            Check::Small => "Small",
            Check::Closed => "Closed",
            Check::Pages => "Pages",
            Check::View => "View",
            Check::Plan => "Plan",
            Check::Many => "Many",
            Check::Space => "Space",
            Check::Stage => "Stage",
        }
    }

    // The fault of this check that names no page, tag or place.
    pub fn fault(self) -> Fault
        ensures { result ≡ bare self }
    {
        Fault {
            check: self,
            page: 0,
            tag: 0,
            place: 0,
        }
    }

    // The fault of this check that names a page, a tag and a place.
    pub fn fault_at(self, page: u32, tag: u16, place: u32) -> Fault
        ensures { result ≡ fault self page tag place }
    {
        Fault {
            check: self,
            page,
            tag,
            place,
        }
    }
}
