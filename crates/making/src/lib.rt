// Why a thing with a capacity, a line store or a shelf, is not made.
#![tactic(auto)]

ghost use Rattle.std.specs.Prelude.{◌≡◌};
ghost use Rattle.making.specs.declared.MakeFault.TheVariants.{Memory};
ghost use Rattle.making.specs.Making.{number_of};

use std::alloc::AllocError;

// A refusal to make one, by its number in the rules.
#[derive(Clone, Copy, PartialEq, Eq, Debug)]
pub enum MakeFault {
    // No such thing has this capacity.
    Capacity = 30,
    // There is not enough memory.
    Memory = 90,
}

impl MakeFault {
    // A cast wants the enum's own type, and `fault.number()` says more than `u8::from(fault)`.
    pub fn number(self) -> u8
        ensures { result ≡ number_of self }
    {
        self as u8
    }
}

// An allocation that fails is a refusal for want of memory.
impl From<AllocError> for MakeFault {
    ghost from_gives = { λ _ fault. fault ≡ Memory };

    fn from(_failed: AllocError) -> MakeFault {
        MakeFault::Memory
    }
}
