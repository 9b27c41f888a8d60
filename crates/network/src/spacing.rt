ghost use Rattle.std.specs.Prelude.{◌≡◌, Ok};
ghost use Rattle.network.specs.Spacings.{Spaced, code_of, decoded};

// How far neighbouring channels lie apart.
#[derive(Clone, Copy, PartialEq, Eq, Debug)]
pub enum Spacing {
    Ghz100,
    Ghz50,
    Ghz25,
    Ghz12_5,
}

// A code that means no spacing.
#[derive(Clone, Copy, PartialEq, Eq, Debug)]
pub struct UnknownCode(pub u8);

impl TryFrom<u8> for Spacing {
    type Error = UnknownCode;

    ghost try_from_gives = { λ code r. r ≡ decoded code };

    fn try_from(code: u8) -> Result<Spacing, UnknownCode> {
        match code {
            1 => Ok(Spacing::Ghz100),
            2 => Ok(Spacing::Ghz50),
            3 => Ok(Spacing::Ghz25),
            4 => Ok(Spacing::Ghz12_5),
            _ => Err(UnknownCode(code)),
        }
    }
}

impl Spacing {
    // The code by which plans and labels tell it. It promises three clauses, which a `From` could
    // not.
    pub fn code(self) -> u8
        ensures is { result ≡ code_of self }
        ensures spaced { Spaced result }
        ensures back { decoded result ≡ Ok self }
    {
        match self {
            Spacing::Ghz100 => 1,
            Spacing::Ghz50 => 2,
            Spacing::Ghz25 => 3,
            Spacing::Ghz12_5 => 4,
        }
    }
}
