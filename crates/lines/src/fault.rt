// Why a line store refuses a call.
ghost use Rattle.std.specs.Prelude.{◌≡◌};
ghost use Rattle.lines.specs.Numbers.{number_of};

// A refusal of a line store, by its number in the rules.
#[derive(Clone, Copy, PartialEq, Eq, Debug)]
pub enum StoreFault {
    // There is no such line, or a tag has an undefined bit.
    Outside = 30,
    // The store holds as many lines as it can.
    Full = 60,
    // The text is over 255 bytes or has a line break in it.
    BadText = 61,
    // The buffer is shorter than the text.
    ShortBuffer = 62,
}

impl StoreFault {
    // A cast wants the enum's own type, and `fault.number()` says more than `u8::from(fault)`.
    pub fn number(self) -> u8
        ensures { result ≡ number_of self }
    {
        self as u8
    }
}
