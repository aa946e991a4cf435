// Addresses worked out, from the left; the first that means no line is the fault.
ghost use Rattle.std.specs.Prelude.{◌≡◌, suc, ◌≤◌, length, IfOk};
ghost use Rattle.command.specs.View.{base_view, address_view, addresses_view};
ghost use Rattle.reading.specs.Views.{seen};
ghost use Rattle.ranges.specs.Spans.{span_of, span_or, RangesOver};
ghost use Rattle.rules.specs.Addresses.{to, base_line, line_of, both, range_of, whole_or, one_line};
ghost use Rattle.rules.specs.Lines.{page, seen_lines};
ghost use Rattle.resolving.specs.Lookup.{least};

use crate::page::Page;
use command::fault::Fault;
use command::said::{Address, Addresses, Base};
use lines::store::LineStore;
use ranges::range::Range;
use tags::marks::find_mark;

impl<'a, T: LineStore> Page<'a, T> {
    // The line that an address counts from. Numbers are at most 65,535, and no text has as many lines.
    fn base(&self, base: Base<'_>) -> Result<usize, Fault>
        ensures value { result ≡ base_line (page (seen_lines (T.LineStore.meaning self.now.text.now)) self.now.current) (base_view base.entry) }
        ensures bounded { IfOk result (λ n. n ≤ 65535) }
    {
        // Both lookups are taken apart by `let .. else`, which the project asks for here.
        match base {
            Base::AtCurrent => Ok(self.current),
            Base::AtLast => Ok(self.text.count()),
            Base::AtNumber(number) => Ok(number as usize),
            Base::AtMark(mark) => {
                let Some(n) = find_mark(self.text, mark) else {
                    return Err(Fault::NoMark);
                };
                Ok(n)
            }
            Base::AtMatch(part) => {
                let Some(n) = self.next_match(part) else {
                    return Err(Fault::NoMatch);
                };
                Ok(n)
            }
        }
    }

    // The line that an address means, or 0. Only the final sum must lie within the text.
    pub fn line_of(&self, address: Address<'_>) -> Result<usize, Fault>
        ensures value { result ≡ line_of (page (seen_lines (T.LineStore.meaning self.now.text.now)) self.now.current) (address_view address.entry) }
        ensures bounded { IfOk result (λ n. n ≤ length (T.LineStore.meaning self.now.text.now).lines) }
    {
        let sum = self.base(address.base)? + address.ahead as usize;
        let back = address.back as usize;
        if back > sum || sum - back > self.text.count() {
            return Err(Fault::OutsideText);
        }
        Ok(sum - back)
    }

    // Both lines that a command's addresses mean; without any, the default.
    fn both(
        &self,
        addresses: Addresses<'_>,
        default: (usize, usize),
    ) -> Result<(usize, usize), Fault>
        ensures { seen (λ x. to x.0 x.1) result ≡ both (page (seen_lines (T.LineStore.meaning self.now.text.now)) self.now.current) (addresses_view addresses.entry) (to default.0 default.1) }
    {
        match addresses {
            Addresses::NoAddress => Ok(default),
            Addresses::OneAddress(address) => {
                let n = self.line_of(address)?;
                Ok((n, n))
            }
            Addresses::TwoAddresses(first, second) => {
                Ok((self.line_of(first)?, self.line_of(second)?))
            }
        }
    }

    // The range that a command takes; without addresses the current line alone.
    pub fn range(&self, addresses: Addresses<'_>) -> Result<Range, Fault>
        ensures value { seen span_of result ≡ range_of (page (seen_lines (T.LineStore.meaning self.now.text.now)) self.now.current) (addresses_view addresses.entry) (to self.now.current self.now.current) }
        ensures count { IfOk result (λ x. x.count ≡ length (T.LineStore.meaning self.now.text.now).lines) }
    {
        let (first, last) = self.both(addresses, (self.current, self.current))?;
        Range::new(first, last, self.text.count()).ok_or(Fault::OutsideText)
    }

    // The range of `w`, `g` and `v`: without addresses the whole text, which may be empty.
    pub fn whole(&self, addresses: Addresses<'_>) -> Result<Option<Range>, Fault>
        ensures value { seen span_or result ≡ whole_or (page (seen_lines (T.LineStore.meaning self.now.text.now)) self.now.current) (addresses_view addresses.entry) }
        ensures count { IfOk result (RangesOver (length (T.LineStore.meaning self.now.text.now).lines)) }
    {
        if let Addresses::NoAddress = addresses {
            let count = self.text.count();
            return Ok(Range::new(1, count, count));
        }
        Ok(Some(self.range(addresses)?))
    }

    // The one line that a command takes, where 0 may be accepted; of two addresses the last counts.
    pub fn line(
        &self,
        addresses: Addresses<'_>,
        default: usize,
        zero_too: bool,
    ) -> Result<usize, Fault>
        ensures value { result ≡ one_line (page (seen_lines (T.LineStore.meaning self.now.text.now)) self.now.current) (addresses_view addresses.entry) default zero_too }
        ensures bounded { IfOk result (λ n. n ≤ length (T.LineStore.meaning self.now.text.now).lines) }
        ensures accepted { IfOk result (λ n. least zero_too ≤ n) }
    {
        let (_, n) = self.both(addresses, (default, default))?;
        if n == 0 && !zero_too || n > self.text.count() {
            return Err(Fault::OutsideText);
        }
        Ok(n)
    }
}
