// Lines of text, one behind another, in a text that has room for the longest report.
ghost use Rattle.std.specs.Prelude.{◌≡◌, [], ◌++◌, ◌+◌, ◌≤◌, length};
ghost use Rattle.report_text.specs.Lines.{line, decimal as decimal_of};

use crate::report::Report;
use arrayvec::ArrayVec;
use io::decimal;

// The bytes that a text has room for.
pub(crate) const ROOM: usize = Report::ROOM;

#[derive(Drop)]
pub(crate) struct Lines {
    text: ArrayVec<u8, ROOM>,
}

impl Lines {
    pub(crate) fn new() -> Self
        ensures { result.text.items ≡ [] }
    {
        Lines {
            text: ArrayVec::new(),
        }
    }

    // One line more: a name, and what it is.
    #[tactic(auto, using(crate::proofs::Appending::line_appended))]
    pub(crate) fn line(mut self, name: &[u8], value: &[u8]) -> Self
        requires { length self.text.items + (length name.now + length value.now + 2) ≤ ROOM }
        ensures text { result.text.items ≡ self.text.items ++ line name.now value.now }
        ensures room { length result.text.items ≡ length self.text.items + (length name.now + length value.now + 2) }
    {
        self.text.try_extend_from_slice(name).unwrap();
        self.text.try_extend_from_slice(b"=").unwrap();
        self.text.try_extend_from_slice(value).unwrap();
        self.text.try_extend_from_slice(b"\n").unwrap();
        self
    }

    // One line more, whose value is a number in decimal: it has at most twenty digits.
    #[tactic(auto, using(crate::proofs::Decimals::digits_decimal, crate::proofs::Appending::number_fits))]
    pub(crate) fn number(self, name: &[u8], number: u64) -> Self
        requires { length self.text.items + (length name.now + 22) ≤ ROOM }
        ensures text { result.text.items ≡ self.text.items ++ line name.now (decimal_of number) }
        ensures room { length result.text.items ≤ length self.text.items + (length name.now + 22) }
    {
        let mut digits = [0; 20];
        let k = decimal(number, &mut digits);
        self.line(name, &digits[..k])
    }

    pub(crate) fn as_slice(&self) -> &[u8]
        ensures { result.now ≡ self.now.text.items }
    {
        self.text.as_slice()
    }
}
