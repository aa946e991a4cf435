// Why no guard is made.
ghost use Rattle.std.specs.Prelude.{◌≡◌};
ghost use Rattle.guard.specs.Numbers.{number_of};

// A refusal to make a guard, by its number in the rules.
#[derive(Clone, Copy, PartialEq, Eq, Debug)]
pub enum GuardFault {
    // The prefix is not 1 to 24 bytes long.
    BadPrefix = 24,
}

impl GuardFault {
    // A cast wants the enum's own type, and `fault.number()` says more than `u8::from(fault)`.
    pub fn number(self) -> u8
        ensures { result ≡ number_of self }
    {
        self as u8
    }
}

// A guard that was not made, with the shelf that it was to stand over.
#[derive(Drop)]
pub struct GuardRefused<S> {
    pub below: S,
    pub fault: GuardFault,
}
