// Reading a number.
ghost use Rattle.std.specs.Prelude.{◌≡◌, ◌<◌, ◌≤◌, length, IfOk, IfSome, IfNone};
ghost use Rattle.reading.specs.Addresses.{digit_at, number_at};
ghost use Rattle.reading.specs.Views.{front_seen, part_seen};

use super::Reader;
use command::fault::Fault;

// The greatest number in an address.
const NUMBER_MAX: u32 = 65_535;

impl Reader<'_> {
    // The number that the digits spell.
    #[tactic(auto, using(crate::proofs::Digits::digits_first, crate::proofs::Digits::digits_on, crate::proofs::Digits::number_none, crate::proofs::Digits::number_is))]
    pub(super) fn number(&mut self) -> Result<u16, Fault>
        ensures value { part_seen (λ n. n) result self.new.rest.now ≡ number_at self.old.rest.now }
        ensures shorter { IfOk result (λ n. length self.new.rest.now < length self.old.rest.now) }
    {
        let first = self.digit().ok_or(Fault::BadAddress)?;
        let mut value = first as u32;
        while let Some(digit) = self.digit() {
            value = value * 10 + digit as u32;
            if value > NUMBER_MAX {
                return Err(Fault::BadAddress);
            }
        }
        Ok(value as u16)
    }

    // The value of one digit.
    #[tactic(auto, unfolding(crate::specs::Addresses::digit_at))]
    fn digit(&mut self) -> Option<u8>
        ensures value { front_seen result self.new.rest.now ≡ digit_at self.old.rest.now }
        ensures shorter { IfSome result (λ d. length self.new.rest.now < length self.old.rest.now) }
        ensures none { IfNone result (self.new.rest.now ≡ self.old.rest.now) }
    {
        match self.rest {
            [digit @ b'0'..=b'9', behind @ ..] => {
                self.rest = behind;
                Some(*digit - b'0')
            }
            _ => None,
        }
    }
}
