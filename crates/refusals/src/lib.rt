// Why a call is refused: the error of every call, and its number.
#![tactic(auto)]

ghost use Rattle.std.specs.Prelude.{◌≡◌};
ghost use Rattle.refusals.specs.Answers.{refusal_number};

// Why a call is refused: rules N2 to N13, in the order of their numbers.
// No `Debug`: its code calls std's, of which the kit shows none, and the theorem door_machine has the code of each call.
#[derive(Clone, Copy, PartialEq, Eq)]
pub enum Refusal {
    BrokenSheet,
    MisfittingBank,
    UnsoundBank,
    SmallBuffer,
    NotReadOnly,
    BadInput,
    BadRing,
    NoFrame,
    ReplyDamaged,
    ReplyStation,
    ReplyFunction,
    ReplyBody,
}

impl From<Refusal> for u32 {
    ghost from_gives = { λ refusal number. number ≡ refusal_number refusal };

    fn from(refusal: Refusal) -> u32 {
        match refusal {
            Refusal::BrokenSheet => 2,
            Refusal::MisfittingBank => 3,
            Refusal::UnsoundBank => 4,
            Refusal::SmallBuffer => 5,
            Refusal::NotReadOnly => 6,
            Refusal::BadInput => 7,
            Refusal::BadRing => 8,
            Refusal::NoFrame => 9,
            Refusal::ReplyDamaged => 10,
            Refusal::ReplyStation => 11,
            Refusal::ReplyFunction => 12,
            Refusal::ReplyBody => 13,
        }
    }
}
