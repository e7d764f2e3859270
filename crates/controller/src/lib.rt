// The controller's half of the line: the query of an order is built, and a reply is read against the order. It knows frames, and no meter.
#![tactic(auto)]

ghost use Rattle.std.specs.Prelude.{◌≡◌, ◌++◌, ◌∷◌, ◌+◌, ◌≤◌, length, take, drop};
ghost use Rattle.frame.specs.Reply.{laid, fill};
ghost use Rattle.controller_rules.specs.Order.{ask};
ghost use Rattle.controller_rules.specs.Query.{query, query_outcome, build_outcome};
ghost use Rattle.controller_rules.specs.Reading.{reply_outcome, reading_outcome};
ghost use Rattle.controller.specs.Stages.{asked_of, head, error_read, values_read, done_read, body_read, reply_read};

mod asked;

use asked::{Asked, Framed, outside};
use controller_rules::{Order, Reading};
use frame::Parts;
use refusals::Refusal;

// Rule Q33.
const MOST_CODE: usize = 3;

// Copies so many bytes, from a place on, to a place on. Both calls of a box have it, which is to link little.
#[inline(never)]
fn copy(from: &[u8], first: usize, to: &mut [u8], at: usize, many: usize)
    requires many_in_bounds { first + many ≤ length from.now }
    requires many_in_bounds_2 { at + many ≤ length to.old }
    ensures { to.new ≡ laid (take at to.old ++ take many (drop first from.now)) to.old }
{
    // Not `copy_from_slice`: the theorem door_machine has the code of each call, and the kit shows none of std's `copy_from_slice`.
    for k in 0..many {
        to[at + k] = from[first + k];
    }
}

// Rule Q33: an error, by its code.
fn error_read(reply: &[u8]) -> Result<Reading, Refusal>
    ensures { result ≡ error_read reply.now }
{
    let code = words::byte_at(reply, 2);
    if reply.len() == frame::ERROR_LENGTH as usize && !outside(code as usize, MOST_CODE) {
        Ok(Reading::Error { code })
    } else {
        Err(Refusal::ReplyBody)
    }
}

impl Framed<'_> {
    // Lays the first six bytes of the query.
    fn lay_head(self, buffer: &mut [u8])
        requires { 6 ≤ length buffer.old }
        ensures { buffer.new ≡ laid (head self.entry.asked.station self.entry.wanted) buffer.old }
    {
        words::store_byte(buffer, 0, self.asked.station as u8);
        words::store_byte(buffer, 1, self.wanted.function);
        words::store_word(buffer, 2, self.wanted.address as u16);
        words::store_word(buffer, 4, self.wanted.second as u16);
    }

    // Rules Q20 and Q21: lays the query, and gives its length.
    fn lay(self, buffer: &mut [u8]) -> u32
        requires { 100 ≤ length buffer.old }
        ensures { let bytes = query (asked_of self.entry.asked) in fill result buffer.new ≡ fill (length bytes) (laid bytes buffer.old) }
    {
        self.lay_head(buffer);
        let mut end = 6;
        if self.wanted.function == frame::WRITES_MANY {
            let values = self.asked.values;
            words::store_byte(buffer, 6, values.len() as u8);
            copy(values, 0, buffer, 7, values.len());
            end = 7 + values.len();
        }
        check_value::seal(buffer, end);
        (end + check_value::CHECK_BYTES) as u32
    }

    // Rule Q34: values, as many words as are wanted.
    fn values_read(self, reply: &[u8]) -> Result<Reading, Refusal>
        ensures { result ≡ values_read self.entry.wanted.words reply.now }
    {
        let length = 2 * self.wanted.words;
        if reply.len() == 5 + length && words::byte_at(reply, 2) as usize == length {
            Ok(Reading::Values {
                length: length as u32,
            })
        } else {
            Err(Refusal::ReplyBody)
        }
    }

    // Rule Q35: done, by the parts of a reply.
    fn done_read(self, parts: Parts) -> Result<Reading, Refusal>
        ensures { result ≡ done_read self.entry.wanted parts }
    {
        let wanted = self.wanted;
        if parts.length == frame::ECHO_LENGTH as usize
            && parts.start as u32 == wanted.address
            && parts.second as usize == wanted.second
        {
            Ok(Reading::Done)
        } else {
            Err(Refusal::ReplyBody)
        }
    }

    // Rules Q32 to Q36: the function and the body of a reply that is taken apart.
    fn body_read(self, parts: Parts, reply: &[u8]) -> Result<Reading, Refusal>
        ensures { result ≡ body_read self.entry.wanted parts reply.now }
    {
        let function = self.wanted.function;
        if parts.function == frame::top_bit_set(function) {
            error_read(reply)
        } else if parts.function != function {
            Err(Refusal::ReplyFunction)
        } else if function == frame::READS {
            self.values_read(reply)
        } else {
            self.done_read(parts)
        }
    }

    // Rules Q30 to Q36: what a reply says.
    fn read(self, reply: &[u8]) -> Result<Reading, Refusal>
        ensures { result ≡ reply_read (asked_of self.entry.asked) reply.now }
    {
        let Some(parts) = frame::taken_apart(reply) else {
            return Err(Refusal::ReplyDamaged);
        };
        if parts.station as u32 != self.asked.station {
            return Err(Refusal::ReplyStation);
        }
        self.body_read(parts, reply)
    }
}

// Builds the query of an order in the first bytes of a buffer, for a station and, where it is for several writes, of values.
pub fn query(order: Order, station: u32, values: &[u8], buffer: &mut [u8]) -> Result<u32, Refusal>
    ensures { query_outcome result buffer.new ≡ build_outcome (ask order station values.now) buffer.old }
{
    let asked = Asked {
        order,
        station,
        values,
    };
    // A match and no `map`: the kit shows no code of std's, which the theorem door_machine would need.
    match asked.framed(buffer.len()) {
        Ok(framed) => Ok(framed.lay(buffer)),
        Err(refusal) => Err(refusal),
    }
}

// Reads a reply against the order that it answers: values, in the first bytes of a buffer, done, or an error.
pub fn reply(
    order: Order,
    station: u32,
    values: &[u8],
    reply: &[u8],
    buffer: &mut [u8],
) -> Result<Reading, Refusal>
    ensures { reply_outcome result buffer.new ≡ reading_outcome (ask order station values.now) reply.now buffer.old }
{
    let asked = Asked {
        order,
        station,
        values,
    };
    // A match and no `?`, twice: the kit shows no code of what `?` calls, which the theorem door_machine would need.
    let framed = match asked.framed(buffer.len()) {
        Ok(framed) => framed,
        Err(refusal) => return Err(refusal),
    };
    let reading = match framed.read(reply) {
        Ok(reading) => reading,
        Err(refusal) => return Err(refusal),
    };
    // Rule Q42.
    if let Reading::Values { length } = reading {
        copy(reply, 3, buffer, 0, length as usize);
    }
    Ok(reading)
}
