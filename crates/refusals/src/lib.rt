// What a call is refused for (document 01, "Refusal numbers"). Within the engine a refusal is an error; C is told its number.
#![tactic(auto)]

ghost use Rattle.std.specs.Prelude.{◌≡◌};
ghost use Rattle.refusals.specs.Number.{number, answer};

#[derive(Clone, Copy, Debug, PartialEq, Eq)]
pub enum Refusal {
    Length,
    Range,
    Identity,
    Kind,
    AreaTotal,
    MeteredLoad,
    NoShares,
    Contracts,
    File,
    Surplus,
}

impl From<Refusal> for u32 {
    ghost from_gives = { λ refusal n. n ≡ number refusal };

    fn from(refusal: Refusal) -> u32 {
        match refusal {
            Refusal::Length => 1,
            Refusal::Range => 2,
            Refusal::Identity => 3,
            Refusal::Kind => 4,
            Refusal::AreaTotal => 5,
            Refusal::MeteredLoad => 6,
            Refusal::NoShares => 7,
            Refusal::Contracts => 8,
            Refusal::File => 9,
            Refusal::Surplus => 10,
        }
    }
}

// What C is told: the number of a refusal, or 0 where there is none.
pub fn answer<T: Copy>(outcome: Result<T, Refusal>) -> u32
    ensures { result ≡ answer outcome }
{
    match outcome {
        Ok(_) => 0,
        Err(refusal) => u32::from(refusal),
    }
}
