// Reading the addresses in front of a command.
ghost use Rattle.std.specs.Prelude.{◌≡◌, true, false, ◌∷◌};
ghost use Rattle.command.specs.View.{address_view, addresses_view};
ghost use Rattle.reading.specs.Read.{begins};
ghost use Rattle.reading.specs.Addresses.{opens_address, is_comma, second_at, after_first, without_first, addresses_at};
ghost use Rattle.reading.specs.Views.{part_seen};

use super::Reader;
use super::address::only;
use command::fault::Fault;
use command::said::{Address, Addresses, Base};

impl<'a> Reader<'a> {
    // No address, one, or two.
    #[tactic(auto, unfolding(crate::specs::Addresses::addresses_at))]
    pub(crate) fn addresses(&mut self) -> Result<Addresses<'a>, Fault>
        ensures { part_seen addresses_view result self.new.rest.now ≡ addresses_at self.old.rest.now }
    {
        if !self.opens_address() {
            return self.without_first();
        }
        let first = self.address()?;
        self.after_first(first)
    }

    // Whether an address begins here.
    fn opens_address(&self) -> bool
        ensures { result ≡ begins opens_address self.now.rest.now }
    {
        matches!(
            self.rest,
            [b'.' | b'$' | b'\'' | b'/' | b'+' | b'-' | b'0'..=b'9', ..]
        )
    }

    fn at_comma(&self) -> bool
        ensures { result ≡ begins is_comma self.now.rest.now }
    {
        matches!(self.rest, [b',', ..])
    }

    // Whether a comma stands here, which then is passed.
    fn comma(&mut self) -> bool
        ensures passed { result ≡ true → self.old.rest.now ≡ 44 ∷ self.new.rest.now }
        ensures none { result ≡ false → (begins is_comma self.old.rest.now ≡ false) × (self.new.rest.now ≡ self.old.rest.now) }
    {
        match self.rest {
            [b',', behind @ ..] => {
                self.rest = behind;
                true
            }
            _ => false,
        }
    }

    // Without a first address: nothing, or a comma by itself, which stands for `1,$`.
    #[tactic(auto, unfolding(crate::specs::Addresses::without_first))]
    fn without_first(&mut self) -> Result<Addresses<'a>, Fault>
        ensures { part_seen addresses_view result self.new.rest.now ≡ without_first self.old.rest.now }
    {
        if !self.comma() {
            return Ok(Addresses::NoAddress);
        }
        if self.opens_address() || self.at_comma() {
            return Err(Fault::BadAddress);
        }
        Ok(Addresses::TwoAddresses(only(Base::AtNumber(1)), only(Base::AtLast)))
    }

    // A first address by itself, or a comma and the second.
    #[tactic(auto, unfolding(crate::specs::Addresses::after_first))]
    fn after_first(&mut self, first: Address<'a>) -> Result<Addresses<'a>, Fault>
        ensures { part_seen addresses_view result self.new.rest.now ≡ after_first (address_view first.entry) self.old.rest.now }
    {
        if !self.comma() {
            return Ok(Addresses::OneAddress(first));
        }
        self.second(first)
    }

    // The second address, and no further comma.
    #[tactic(auto, unfolding(crate::specs::Addresses::second_at))]
    fn second(&mut self, first: Address<'a>) -> Result<Addresses<'a>, Fault>
        ensures { part_seen addresses_view result self.new.rest.now ≡ second_at (address_view first.entry) self.old.rest.now }
    {
        let second = self.address()?;
        if self.at_comma() {
            return Err(Fault::BadAddress);
        }
        Ok(Addresses::TwoAddresses(first, second))
    }
}
