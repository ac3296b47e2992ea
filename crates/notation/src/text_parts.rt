//! Parts of a text, whoever splits it.
use bstr::Split;

/// The parts of a text that are still to be taken.
pub trait TextParts<'a>: Drop {
    ghost use Rattle.std.specs.Prelude.{ℕ, List};
    ghost use Rattle.std.specs.Iterator.{YieldsFirstRef};

    // From the first to the last.
    ghost left: { Self → List (List ℕ) };

    /// Takes the first of them.
    fn next_part(&mut self) -> Option<&'a [u8]>
        ensures { YieldsFirstRef left self.old result self.new };
}

/// The library splits at separators of any length.
impl<'a, 's> TextParts<'a> for Split<'a, 's> {
    ghost left = { λ parts. parts };

    #[inline]
    fn next_part(&mut self) -> Option<&'a [u8]> {
        self.next()
    }
}
