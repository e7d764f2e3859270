// What is asked of a station, whether it has a frame, and what its query and its reply then show.
ghost use Rattle.std.specs.Prelude.{◌≡◌, ◌*◌, ◌≤◌, length, not, false, MatchResult};
ghost use Rattle.lists.specs.Lists.{between};
ghost use Rattle.frame.specs.Frame.{writes_many, most_read};
ghost use Rattle.frame.specs.Reply.{least_buffer};
ghost use Rattle.controller_rules.specs.Order.{most_station, most_written, highest_word, wrong_values, wrong_number, past_last, no_frame};
ghost use Rattle.controller.specs.Stages.{asked_of, refused, wanted_by, wanted_of};

use controller_rules::Order;
use frame::{CLEARS, MOST_READ, READS, WRITES_MANY, WRITES_ONE};
use refusals::Refusal;

// Rules Q11 to Q15.
const MOST_STATION: usize = 247;

const MOST_WRITTEN: usize = 45;

const HIGHEST_WORD: u32 = 0xFFFF;

// What an order's query and its reply show: the function, the address, the second word, how many addresses it is for, and how many words a good
// reply brings.
#[derive(Clone, Copy)]
pub(crate) struct Wanted {
    pub(crate) function: u8,
    pub(crate) address: u32,
    pub(crate) second: usize,
    pub(crate) addresses: usize,
    pub(crate) words: usize,
}

// Rule Q1: an order, and the values of several writes.
#[derive(Clone, Copy)]
pub(crate) struct Asked<'a> {
    pub(crate) order: Order,
    pub(crate) station: u32,
    pub(crate) values: &'a [u8],
}

// What is asked, where it has a frame: so all that it shows fits.
#[derive(Clone, Copy)]
pub(crate) struct Framed<'a> {
    pub(crate) asked: Asked<'a>,
    pub(crate) wanted: Wanted,
    ghost shows: { wanted ≡ wanted_of asked.order asked.values.now },
    ghost station_fits: { asked.station ≤ most_station },
    ghost address_fits: { wanted.address ≤ highest_word },
    ghost second_fits: { wanted.second ≤ highest_word },
    ghost words_fit: { wanted.words ≤ most_read },
    ghost values_fit: { wanted.function ≡ writes_many → length asked.values.now ≤ 2 * most_written },
}

// The numbers of an order by their places: so the orders stand in a table, a line for each.
fn wants(function: u8, address: u32, second: usize, addresses: usize, words: usize) -> Wanted
    ensures { result ≡ wanted_by function address second addresses words }
{
    Wanted {
        function,
        address,
        second,
        addresses,
        words,
    }
}

// Whether a number is none of 1 to the most there may be.
pub(crate) fn outside(n: usize, most: usize) -> bool
    ensures { result ≡ not (between 1 most n) }
{
    // Not `contains`: the theorem door_machine has the code of each call, and the kit shows none of std's `contains`.
    n < 1 || most < n
}

// Rule Q13: whether several writes have an odd number of bytes, or too few or too many.
fn wrong_values(values: &[u8]) -> bool
    ensures { result ≡ wrong_values values.now }
{
    values.len() % 2 != 0 || outside(values.len() / 2, MOST_WRITTEN)
}

impl<'a> Asked<'a> {
    // Rules Q3 to Q8.
    fn wanted(self) -> Wanted
        ensures { result ≡ wanted_of self.entry.order self.entry.values.now }
    {
        let sent = self.values.len() / 2;
        match self.order {
            Order::Read { start, count } => {
                let many = count as usize;
                wants(READS, start, many, many, many)
            }
            Order::Record { address, words } => wants(READS, address, 1, 1, words as usize),
            Order::Write { address, value } => wants(WRITES_ONE, address, value as usize, 1, 0),
            Order::Writes { start } => wants(WRITES_MANY, start, sent, sent, 0),
            Order::Clear { address } => wants(CLEARS, address, 0, 1, 0),
            Order::Unknown => wants(0, 0, 0, 1, 0),
        }
    }

    // Rules Q10 and Q12 to Q14.
    fn wrong_number(self) -> bool
        ensures { result ≡ wrong_number self.entry.order self.entry.values.now }
    {
        match self.order {
            Order::Read { count, .. } => outside(count as usize, MOST_READ as usize),
            Order::Record { words, .. } => outside(words as usize, MOST_READ as usize),
            Order::Write { value, .. } => HIGHEST_WORD < value,
            Order::Writes { .. } => wrong_values(self.values),
            Order::Clear { .. } => false,
            Order::Unknown => true,
        }
    }

    // Rule Q15: whether the run of addresses goes past FFFF.
    fn past_last(self) -> bool
        ensures { result ≡ past_last self.entry.order self.entry.values.now }
    {
        let wanted = self.wanted();
        HIGHEST_WORD as usize + 1 < wanted.address as usize + wanted.addresses
    }

    // Rules N9 and Q10 to Q15: whether it has no frame.
    #[tactic(auto, unfolding(controller_rules::specs::Order::no_frame))]
    fn no_frame(self) -> bool
        ensures { result ≡ no_frame (asked_of self.entry) }
    {
        outside(self.station as usize, MOST_STATION) || self.wrong_number() || self.past_last()
    }

    // What refuses a query and a reply alike, rules Q22 and Q40: it has no frame, or so many bytes have no room for one.
    pub(crate) fn framed(self, room: usize) -> Result<Framed<'a>, Refusal>
        ensures { MatchResult result (λ framed. (asked_of framed.asked ≡ asked_of self.entry) × (no_frame (asked_of self.entry) ≡ false) × (least_buffer ≤ room)) (λ refusal. refused (asked_of self.entry) room ≡ Some refusal) }
    {
        if self.no_frame() {
            return Err(Refusal::NoFrame);
        }
        if room < frame::LEAST_BUFFER {
            return Err(Refusal::SmallBuffer);
        }
        Ok(Framed {
            asked: self,
            wanted: self.wanted(),
        })
    }
}
