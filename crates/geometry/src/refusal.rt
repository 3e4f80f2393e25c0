// Why a call says no. `refusal_number` of the specifications says which number of document 01 stands for each.
ghost use Rattle.std.specs.Prelude.{◌≡◌};
ghost use Rattle.geometry.specs.Refusal.{refusal_number, answer_number, verdict_of, accepted, after_check};

#[derive(Clone, Copy, Debug, PartialEq, Eq)]
pub enum Refusal {
    BytesEnd = 1,
    StrayBit = 2,
    AbsentValue = 3,
    OutOfRange = 4,
    BytesLeftOver = 5,
    ListsUnequal = 6,
    TooManyMarks = 7,
    BadMark = 8,
    ListTooShort = 9,
    WorkTooShort = 10,
    NoPlacing = 11,
    GapTooWide = 12,
    StrayByte = 13,
    NotFinite = 15,
    NotOnOneLine = 18,
}

impl From<Refusal> for u8 {
    ghost from_gives = { λ refusal number. number ≡ refusal_number refusal };

    fn from(refusal: Refusal) -> u8 {
        refusal as u8
    }
}

// The number that a C host gets: 0 from an accepted call, else that of the refusal.
pub fn number<T>(answer: &Result<T, Refusal>) -> u8
    ensures { result ≡ answer_number answer.now }
{
    match answer {
        Ok(_) => 0,
        Err(refusal) => u8::from(*refusal),
    }
}

// One check: refused where it does not pass.
pub fn check(passes: bool, otherwise: Refusal) -> Result<(), Refusal>
    ensures { verdict_of result ≡ after_check passes otherwise accepted }
{
    if passes { Ok(()) } else { Err(otherwise) }
}
