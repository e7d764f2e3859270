// The number of each case of the library's answers: rules N0 to N13, Y0 to Y24 for the reasons, and Q2, Q23 and Q41 for orders.
ghost use Rattle.std.specs.Prelude.{◌≡◌};
ghost use Rattle.cedarskein.specs.Door.{number_in};
ghost use Rattle.meter_rules.specs.Answer.{answered_number, length_in, rate_in};
ghost use Rattle.why_rules.specs.Reasons.{reason_number, reason_in, address_in, side_in};
ghost use Rattle.range.specs.Range.{side_number};
ghost use Rattle.controller_rules.specs.Order.{order_by};
ghost use Rattle.controller_rules.specs.Query.{built_length};
ghost use Rattle.controller_rules.specs.Reading.{reading_length, reading_error};

use controller_rules::{Order, Reading};
use meter_rules::Answered;
use range::Side;
use refusals::Refusal;
use why_rules::Reason;

// The number of an answer of which the refusal alone has one, else 0. By reference: a bound `T: Copy` would bring code of std's `clone`,
// which the kit does not show, and the theorem door_machine has the code of each call.
pub(crate) fn number<T>(answer: &Result<T, Refusal>) -> u32
    ensures { result ≡ number_in answer.now }
{
    match answer {
        Ok(_) => 0,
        Err(refusal) => u32::from(*refusal),
    }
}

pub(crate) fn of_answered(answered: Result<Answered, Refusal>) -> u32
    ensures { result ≡ answered_number answered }
{
    match answered {
        Ok(Answered::Silence) => 1,
        _ => number(&answered),
    }
}

// The length of a reply; 0 where there is none, here and below: C gets numbers.
pub(crate) fn length_of(answered: Result<Answered, Refusal>) -> u32
    ensures { result ≡ length_in answered }
{
    match answered {
        Ok(Answered::Reply { length, .. }) => length,
        Ok(Answered::Error { .. }) => frame::ERROR_LENGTH,
        Ok(Answered::Silence) | Err(_) => 0,
    }
}

// The rate of a reply; 0 where there is none.
pub(crate) fn rate_of(answered: Result<Answered, Refusal>) -> u32
    ensures { result ≡ rate_in answered }
{
    match answered {
        Ok(Answered::Reply { rate, .. } | Answered::Error { rate, .. }) => rate as u32,
        Ok(Answered::Silence) | Err(_) => 0,
    }
}

// Of a reason, and below of a side: rules Y0 to Y24 number them for C alone, so they stand here and are no `From` of their crates.
fn of_reason(reason: Option<Reason>) -> u32
    ensures { result ≡ reason_number reason }
{
    match reason {
        None => 0,
        Some(Reason::TooShort) => 1,
        Some(Reason::TooLong) => 2,
        Some(Reason::Check) => 3,
        Some(Reason::Station) => 4,
        Some(Reason::Function) => 5,
        Some(Reason::BodyLength) => 6,
        Some(Reason::Count) => 7,
        Some(Reason::Address { .. }) => 8,
        Some(Reason::ClearValue) => 9,
        Some(Reason::Item { .. }) => 10,
    }
}

fn of_side(side: Side) -> u32
    ensures { result ≡ side_number side }
{
    match side {
        Side::InRange => 0,
        Side::TooLow => 1,
        Side::TooHigh => 2,
    }
}

// The number of the reason, its address, and the number of its side; 0 where there is none to tell, and with a refusal.
pub(crate) fn reason_in(explained: Result<Option<Reason>, Refusal>) -> u32
    ensures { result ≡ reason_in explained }
{
    match explained {
        Ok(reason) => of_reason(reason),
        Err(_) => 0,
    }
}

pub(crate) fn address_in(explained: Result<Option<Reason>, Refusal>) -> u32
    ensures { result ≡ address_in explained }
{
    match explained {
        Ok(Some(Reason::Address { address } | Reason::Item { address, .. })) => address,
        _ => 0,
    }
}

pub(crate) fn side_in(explained: Result<Option<Reason>, Refusal>) -> u32
    ensures { result ≡ side_in explained }
{
    match explained {
        Ok(Some(Reason::Item { side, .. })) => of_side(side),
        _ => 0,
    }
}

// An order by its number.
pub(crate) fn order_of(kind: u32, address: u32, number: u32) -> Order
    ensures { result ≡ order_by kind address number }
{
    match kind {
        0 => Order::Read {
            start: address,
            count: number,
        },
        1 => Order::Record {
            address,
            words: number,
        },
        2 => Order::Write {
            address,
            value: number,
        },
        3 => Order::Writes { start: address },
        4 => Order::Clear { address },
        _ => Order::Unknown,
    }
}

// The length of a query; 0 with a refusal.
pub(crate) fn length_built(built: Result<u32, Refusal>) -> u32
    ensures { result ≡ built_length built }
{
    // Not `unwrap_or`: the theorem door_machine has the code of each call, and the kit shows none of std's `unwrap_or`.
    match built {
        Ok(length) => length,
        Err(_) => 0,
    }
}

// The length of a reply's values and its error code; 0 where there is none.
pub(crate) fn length_read(reading: Result<Reading, Refusal>) -> u32
    ensures { result ≡ reading_length reading }
{
    match reading {
        Ok(Reading::Values { length }) => length,
        _ => 0,
    }
}

pub(crate) fn error_read(reading: Result<Reading, Refusal>) -> u32
    ensures { result ≡ reading_error reading }
{
    match reading {
        Ok(Reading::Error { code }) => code as u32,
        _ => 0,
    }
}
