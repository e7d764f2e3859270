// What a frame is, apart from a meter: its parts, and the replies to it, each laid in the first bytes of an answer buffer. Every function
// takes any slices: a byte past the end of a frame counts as 0, and a reply without room is not laid.
#![tactic(auto)]

ghost use Rattle.std.specs.Prelude.{◌≡◌, ◌++◌, ◌+◌, ◌*◌, ◌≤◌, length, take};
ghost use Rattle.words.specs.Words.{bytes_of};
ghost use Rattle.frame.specs.Frame.{passed_frame};
ghost use Rattle.frame.specs.Reply.{top_bit_set, words_from, read_reply, echo, error_reply, with_check, laid, fill, lay_reply};

// The functions: 03 reads, 05 clears the mark, 06 writes one register, 10 writes several. They stay numbers: `passed_frame` and `top_bit_set` speak of any
// byte that a frame may have there; behind step 3 an enum would stand beside that byte and say it twice.
pub const READS: u8 = 0x03;

pub const CLEARS: u8 = 0x05;

pub const WRITES_ONE: u8 = 0x06;

pub const WRITES_MANY: u8 = 0x10;

// The most words that the reply to a read has room for in the longest frame.
pub const MOST_READ: u16 = 47;

// How many bytes an error and an echo have with their check.
pub const ERROR_LENGTH: u32 = 5;

pub const ECHO_LENGTH: u32 = 8;

// The least buffer for a frame: it has room for each that is laid.
pub const LEAST_BUFFER: usize = 100;

// The parts of a frame that the order of judgement speaks of.
#[derive(Clone, Copy)]
pub struct Parts {
    pub station: u8,
    pub function: u8,
    pub start: u16,
    pub second: u16,
    pub bytes: u8,
    pub length: usize,
}

// Step 1: takes a frame apart, where it passes.
#[tactic(auto, unfolding(crate::specs::Frame::passed_frame))]
pub fn taken_apart(frame: &[u8]) -> Option<Parts>
    ensures { result ≡ passed_frame frame.now }
{
    if !check_value::passes(frame) {
        return None;
    }
    Some(Parts {
        station: words::byte_at(frame, 0),
        function: words::byte_at(frame, 1),
        start: words::word_at(frame, 2),
        second: words::word_at(frame, 4),
        bytes: words::byte_at(frame, 6),
        length: frame.len(),
    })
}

const TOP_BIT: u8 = 0x80;

// A function byte in an error: rule R5.
pub fn top_bit_set(function: u8) -> u8
    ensures { result ≡ top_bit_set function }
{
    function | TOP_BIT
}

// Rules R4 to R6. Gives the length of the reply, or 0 without room.
// (a) A number for what is an Option, here and in the two below: each promise is that of specs/Reply.antt, whose `lay_reply` fills 0 bytes without room.
pub fn reply_error(frame: &[u8], buffer: &mut [u8], code: u8) -> u32
    ensures { fill result buffer.new ≡ lay_reply (with_check (error_reply frame.now code)) buffer.old }
{
    if buffer.len() < ERROR_LENGTH as usize {
        return 0;
    }
    buffer[0] = words::byte_at(frame, 0);
    buffer[1] = top_bit_set(words::byte_at(frame, 1));
    buffer[2] = code;
    check_value::seal(buffer, 3);
    ERROR_LENGTH
}

// Rules R2, R3 and R6: in each case the frame's first six bytes, then their check.
pub fn reply_echo(frame: &[u8], buffer: &mut [u8]) -> u32
    ensures { fill result buffer.new ≡ lay_reply (with_check (echo frame.now)) buffer.old }
{
    if buffer.len() < ECHO_LENGTH as usize {
        return 0;
    }
    buffer[0] = words::byte_at(frame, 0);
    buffer[1] = words::byte_at(frame, 1);
    words::store_word(buffer, 2, words::word_at(frame, 2));
    words::store_word(buffer, 4, words::word_at(frame, 4));
    check_value::seal(buffer, 6);
    ECHO_LENGTH
}

// Lays so many words of a source, from a place on, behind the first three bytes of a buffer, which has room for them: so no word is tested
// for it.
fn lay_words(source: &[u8], buffer: &mut [u8], first: u32, many: u32)
    requires { 3 + 2 * many ≤ length buffer.old }
    ensures { buffer.new ≡ laid (take 3 buffer.old ++ bytes_of (words_from source.now first many)) buffer.old }
{
    for k in 0..many {
        let word = words::word_at(source, 2 * (first as usize + k as usize));
        let at = 3 + 2 * (k as usize);
        // (a) Taken apart here, and not by to_be_bytes: as in `words`, crates/runs shows a machine that has all of this code (claim D13).
        buffer[at] = (word / 256) as u8;
        buffer[at + 1] = (word % 256) as u8;
    }
}

// Rules R1, R6 and R9. The words are those of a source, from a place on.
pub fn reply_read(source: &[u8], frame: &[u8], buffer: &mut [u8], first: u32, many: u32) -> u32
    ensures { fill result buffer.new ≡ lay_reply (with_check (read_reply source.now frame.now first many)) buffer.old }
{
    if many > MOST_READ as u32 {
        return 0;
    }
    let length = 5 + 2 * many;
    if buffer.len() < length as usize {
        return 0;
    }
    buffer[0] = words::byte_at(frame, 0);
    buffer[1] = READS;
    buffer[2] = (2 * many) as u8;
    lay_words(source, buffer, first, many);
    check_value::seal(buffer, 3 + 2 * (many as usize));
    length
}
