// Why a given line is refused.
ghost use Rattle.std.specs.Prelude.{◌≡◌};
ghost use Rattle.command.specs.Numbers.{number_of};
ghost use Rattle.command.specs.Shelves.{shelf_fault};

use shelf::fault::ShelfFault;

// A refusal of a given line, by its number.
#[derive(Clone, Copy, PartialEq, Eq, Debug)]
pub enum Fault {
    // At the entry.
    SheetTooShort = 1,
    BreakInLine = 2,
    InputTooLong = 3,
    SessionEnded = 4,
    WrongStores = 5,
    // In text mode, and while a command line is gathered.
    TextFull = 10,
    CommandTooLong = 11,
    // In reading.
    BadCommand = 20,
    BadAddress = 21,
    BadPattern = 22,
    NoName = 23,
    BadName = 24,
    NotInList = 25,
    UnwantedAddress = 26,
    // In working out lines, and of what a session remembers.
    OutsideText = 30,
    NoMark = 31,
    NoMatch = 32,
    DestinationInRange = 34,
    Unsaved = 35,
    NothingToUndo = 36,
    // Of files.
    FileNotFound = 50,
    ShelfFull = 51,
    ProtectedName = 52,
    // In reckoning what a command would make.
    TooManyLines = 60,
    LineTooLong = 61,
    SheetFull = 62,
}

impl Fault {
    pub fn number(self) -> u8
        ensures { result ≡ number_of self }
    {
        self as u8
    }
}

// The fault of a line that a shelf refused.
impl From<ShelfFault> for Fault {
    ghost from_gives = { λ refusal fault. fault ≡ shelf_fault refusal };

    fn from(refusal: ShelfFault) -> Fault {
        match refusal {
            ShelfFault::BadName => Fault::BadName,
            ShelfFault::Full => Fault::ShelfFull,
            ShelfFault::Protected => Fault::ProtectedName,
            ShelfFault::NoFile => Fault::FileNotFound,
        }
    }
}
