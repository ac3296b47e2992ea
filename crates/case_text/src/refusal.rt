//! How the refusal of a store is written.
ghost use Rattle.std.specs.Prelude.{Some};
ghost use Rattle.case_text.specs.Refusals.{refusal_text};

use sheet::StoreFault;
use std::fmt;

/// Why a store was refused, as an answer says it: `no`, the number of the refusal, and the place that breaks a rule.
#[derive(Clone, Copy, PartialEq, Eq, Debug)]
pub struct Refusal(pub StoreFault);

impl fmt::Display for Refusal {
    ghost output = { λ r. Some (refusal_text r.0) };

    fn fmt<W: fmt::Write>(&self, f: &mut fmt::Formatter<W>) -> fmt::Result {
        let number = self.0.number();
        match self.0 {
            StoreFault::Frame => write!(f, "no {number}"),
            StoreFault::Rules { place, .. } => write!(f, "no {number} {place}"),
        }
    }
}
