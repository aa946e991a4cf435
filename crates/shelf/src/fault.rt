// Why a shelf refuses a call.
ghost use Rattle.std.specs.Prelude.{◌≡◌};
ghost use Rattle.shelf.specs.Numbers.{number_of};

// A refusal of a shelf, by its number in the rules.
#[derive(Clone, Copy, PartialEq, Eq, Debug)]
pub enum ShelfFault {
    // The name is not 1 to 24 bytes from 33 to 126.
    BadName = 24,
    // There would be nine files, or more bytes than the capacity.
    Full = 51,
    // The name is protected.
    Protected = 52,
    // No file has this number.
    NoFile = 54,
}

impl ShelfFault {
    // A cast wants the enum's own type, and `fault.number()` says more than `u8::from(fault)`.
    pub fn number(self) -> u8
        ensures { result ≡ number_of self }
    {
        self as u8
    }
}
