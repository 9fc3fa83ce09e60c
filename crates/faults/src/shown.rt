// Checks and faults as they are printed.
ghost use Rattle.std.specs.Prelude.{Some};
ghost use Rattle.faults.specs.Faults.{report, printed};

use crate::fault::{Check, Fault};
use std::fmt;

// The check's name.
impl fmt::Display for Check {
    ghost output = { λ c. Some (report c).name };

    fn fmt<W: fmt::Write>(&self, f: &mut fmt::Formatter<W>) -> fmt::Result {
        f.write_str(self.name())
    }
}

// `refused NUMBER NAME page P tag T place L`.
impl fmt::Display for Fault {
    ghost output = { λ f. Some (printed f) };

    fn fmt<W: fmt::Write>(&self, f: &mut fmt::Formatter<W>) -> fmt::Result {
        write!(
            f,
            "refused {} {} page {} tag {} place {}",
            self.check.number(),
            self.check,
            self.page,
            self.tag,
            self.place,
        )
    }
}
