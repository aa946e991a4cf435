// Reading a set in brackets.
ghost use Rattle.std.specs.Prelude.{◌≡◌, ◌≤◌, length};
ghost use Rattle.patterns.specs.Behind.{set_left, member_left};
ghost use Rattle.patterns.specs.Reading.{class_mark, member_at, inside_at, brackets_at};

use super::Reader;
use super::member::Member;
use crate::byte_set::ByteSet;
use crate::fault::PatternFault;

impl Reader<'_> {
    // What stands behind `[`: a set, or with `^` its complement.
    pub(super) fn brackets(&mut self) -> Result<ByteSet, PatternFault>
        ensures { set_left result self.new.rest.now ≡ brackets_at self.old.rest.now }
    {
        match self.rest {
            [b'^', behind @ ..] => {
                self.rest = behind;
                Ok(self.inside()?.complement())
            }
            _ => self.inside(),
        }
    }

    // The members up to the closing `]`. Where it stands first, `]` is a member.
    fn inside(&mut self) -> Result<ByteSet, PatternFault>
        ensures { set_left result self.new.rest.now ≡ inside_at self.old.rest.now }
    {
        let mut set = ByteSet::default();
        let mut first = true;
        while let [byte, behind @ ..] = self.rest {
            self.rest = behind;
            if *byte == b']' && !first {
                return Ok(set);
            }
            let member = self.member(*byte)?;
            set.insert_span(member.low, member.high);
            first = false;
        }
        Err(PatternFault::Bad)
    }

    // The member that begins with a byte: a range, or the byte by itself.
    fn member(&mut self, byte: u8) -> Result<Member, PatternFault>
        ensures value { member_left result self.new.rest.now ≡ member_at byte self.old.rest.now }
        ensures forward { length self.new.rest.now ≤ length self.old.rest.now }
    {
        let high = match self.rest {
            [b'-', end, behind @ ..] if *end != b']' => {
                self.rest = behind;
                *end
            }
            _ => byte,
        };
        if high < byte || self.at_class_mark(high) {
            return Err(PatternFault::Bad);
        }
        Ok(Member { low: byte, high })
    }

    // `[.` `[=` and `[:` inside brackets, at `[` or whatever byte stands there instead.
    fn at_class_mark(&self, byte: u8) -> bool
        ensures { result ≡ class_mark byte self.now.rest.now }
    {
        byte == b'[' && matches!(self.rest, [b'.' | b'=' | b':', ..])
    }
}
