// Document 01, "Codes": one name for each code, with its number; `number_of` in specs/Codes.antt says which.
ghost use Rattle.std.specs.Prelude.{◌≡◌};
ghost use Rattle.rules.specs.Codes.{number_of};

#[derive(Clone, Copy, PartialEq, Eq)]
pub enum Code {
    Done = 0,
    Malformed = 1,
    Absent = 2,
    Shut = 3,
    NoRoom = 4,
    NoBytes = 5,
    BeyondLimit = 6,
    TestValue = 7,
}

impl From<Code> for u8 {
    ghost from_gives = { λ code number. number ≡ number_of code };

    fn from(code: Code) -> u8 {
        code as u8
    }
}
