//! The whole report, and the sentence for a sheet that was refused.
ghost use Rattle.std.specs.Prelude.{◌≡◌, IfOk, string_bytes};
ghost use Rattle.report.specs.Reports.{report_of, rule_words, explanation};

use crate::texts::text;
use crate::totals::tally;
use crate::view::View;
use sheet::{Rule, Store, StoreFault};
use std::alloc::{AllocError, Global};

/// The whole report of a sheet.
pub fn show<S: Store>(heap: Global, store: &S) -> Result<String, AllocError>
    ensures { IfOk result (λ s. string_bytes s ≡ report_of (S.Store.sheet store.now)) }
{
    let counts = tally(store);
    let filled = text(heap, store, View::Filled)?;
    let plain = text(heap, store, View::Plain)?;
    format!(in heap; "{counts}\n\nas it was filled:\n{filled}\n\nplain reading:\n{plain}\n")
}

/// Why a sheet was refused, in a sentence.
pub fn explain(heap: Global, fault: StoreFault) -> Result<String, AllocError>
    ensures { IfOk result (λ s. string_bytes s ≡ explanation fault) }
{
    match fault {
        StoreFault::Frame => String::from_str(
            heap,
            "refused by 11: the packed frame is broken. Bytes are missing, byte 0 is not 1, or a pair is empty, out of order or past the end of the text.",
        ),
        StoreFault::Rules { place, rule } => {
            format!(in heap; "refused by 10 at place {place}: {}.", rule_text(rule))
        }
    }
}

/// What is wrong where a rule is broken. A function, since `Rule` belongs to `sheet`: `Display` for it cannot stand here.
fn rule_text(rule: Rule) -> &'static str
    ensures { result.now ≡ rule_words rule }
{
    match rule {
        Rule::TooMany => "there are more than 65535 entries",
        Rule::UnknownKind => "the kind of this entry is not known",
        Rule::NameWanted => "after an apostrophe only a name may stand",
        Rule::Text => "the text of this name or literal is not good",
        Rule::Mark => "the character or the spacing of this mark is not legal",
        Rule::Delimiter => "the delimiter of this group is above 3",
        Rule::TooDeep => "60 groups are open here already",
        Rule::Distance =>
            "the distance of this End does not match its group, or is not 0 where no group is open",
        Rule::EndTooEarly => "this End closes the sheet, but more entries follow",
        Rule::EndMissing => "the End that closes the sheet is missing",
    }
}
