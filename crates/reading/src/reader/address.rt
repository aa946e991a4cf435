// Reading one address.
ghost use Rattle.std.specs.Prelude.{◌≡◌, true, false, ◌∷◌, length, MatchOption};
ghost use Rattle.command.specs.View.{base_view, address_view};
ghost use Rattle.reading.specs.Read.{begins};
ghost use Rattle.reading.specs.Addresses.{is_sign, mark_at, base_at, only, offsets_at, address_at};
ghost use Rattle.reading.specs.Views.{part_seen};

use super::Reader;
use command::fault::Fault;
use command::mark::Mark;
use command::said::{Address, Base};

// A base without offsets.
pub(super) fn only(base: Base<'_>) -> Address<'_>
    ensures { address_view result ≡ only (base_view base.entry) }
{
    Address {
        base,
        ahead: 0,
        back: 0,
    }
}

impl<'a> Reader<'a> {
    // An address. Where none begins, it is missing.
    #[tactic(auto, unfolding(crate::specs::Addresses::address_at))]
    pub(super) fn address(&mut self) -> Result<Address<'a>, Fault>
        ensures { part_seen address_view result self.new.rest.now ≡ address_at self.old.rest.now }
    {
        let base = self.base()?;
        self.offsets(base)
    }

    // The mark that the first byte names.
    #[tactic(auto, unfolding(crate::specs::Addresses::mark_at))]
    pub(super) fn mark(&mut self) -> Result<Mark, Fault>
        ensures { part_seen (λ m. m.letter) result self.new.rest.now ≡ mark_at self.old.rest.now }
    {
        let (byte, behind) = self.rest.split_first().ok_or(Fault::BadCommand)?;
        let mark = Mark::named(*byte).ok_or(Fault::BadCommand)?;
        self.rest = behind;
        Ok(mark)
    }

    // What an address begins with. Offsets alone count from the current line.
    #[tactic(auto, unfolding(crate::specs::Addresses::base_at))]
    fn base(&mut self) -> Result<Base<'a>, Fault>
        ensures { part_seen base_view result self.new.rest.now ≡ base_at self.old.rest.now }
    {
        match self.rest {
            [] => Err(Fault::BadAddress),
            [b'.', behind @ ..] => {
                self.rest = behind;
                Ok(Base::AtCurrent)
            }
            [b'$', behind @ ..] => {
                self.rest = behind;
                Ok(Base::AtLast)
            }
            [b'\'', behind @ ..] => {
                self.rest = behind;
                Ok(Base::AtMark(self.mark()?))
            }
            [b'/', behind @ ..] => {
                self.rest = behind;
                Ok(Base::AtMatch(self.pattern(b'/')?))
            }
            [b'+' | b'-', ..] => Ok(Base::AtCurrent),
            _ => Ok(Base::AtNumber(self.number()?)),
        }
    }

    // A base and the offsets behind it. So few bytes keep the sums within 32 bits.
    #[tactic(auto, using(crate::proofs::Offsets::offsets_over))]
    fn offsets(&mut self, base: Base<'a>) -> Result<Address<'a>, Fault>
        ensures { part_seen address_view result self.new.rest.now ≡ offsets_at (length self.old.rest.now) (only (base_view base.entry)) self.old.rest.now }
    {
        let mut address = only(base);
        while let Some(sign) = self.sign() {
            let number = self.number()?;
            if sign == b'+' {
                address.ahead += number as u32;
            } else {
                address.back += number as u32;
            }
        }
        Ok(address)
    }

    // The sign in front of an offset.
    fn sign(&mut self) -> Option<u8>
        ensures { MatchOption result ((begins is_sign self.old.rest.now ≡ false) × (self.new.rest.now ≡ self.old.rest.now)) (λ s. (self.old.rest.now ≡ s ∷ self.new.rest.now) × (is_sign s ≡ true)) }
    {
        match self.rest {
            [sign @ (b'+' | b'-'), behind @ ..] => {
                self.rest = behind;
                Some(*sign)
            }
            _ => None,
        }
    }
}
