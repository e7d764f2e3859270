// The meter at hand, and what a line does with it.
use crate::results::FILL;
use crate::{fields, results};
use meter_rules::Answered;
use refusals::Refusal;
use std::io;
use std::io::Stdout;

// The bytes of the longest sheet.
const SHEET_ROOM: usize = 862;

// The bytes of the longest bank.
const BANK_ROOM: usize = 514;

// The bytes of the longest frame, reply or answer buffer of a line.
const FRAME_ROOM: usize = 128;

// The bytes of the longest text of words to post.
const POST_ROOM: usize = 64;

// The sheet at hand, and the bank, each the front of a room: a length beside each, since nothing here has a heap, and what is behind the bank stays, as a
// line B may take it back.
#[derive(Drop)]
pub(crate) struct AtHand {
    out: Stdout,
    sheet_room: [u8; SHEET_ROOM],
    sheet_size: usize,
    bank_room: [u8; BANK_ROOM],
    bank_size: usize,
}

impl AtHand {
    pub(crate) fn new(out: Stdout) -> AtHand {
        AtHand {
            out,
            sheet_room: [0; SHEET_ROOM],
            sheet_size: 0,
            bank_room: [0; BANK_ROOM],
            bank_size: 0,
        }
    }

    // Takes a sheet, and makes a bank of its size fresh.
    fn start(&mut self, sheet: &[u8]) {
        if let Some(front) = self.sheet_room.get_mut(..sheet.len()) {
            front.copy_from_slice(sheet);
        }
        self.sheet_size = sheet.len();
        self.bank_size = 2 * usize::from(rows::bank_words(sheet)) + 2;
        if let Some(bank) = self.bank_room.get_mut(..self.bank_size) {
            let _ = bank::fresh(sheet, bank);
        }
    }

    fn start_made_up(&mut self, line: &[u8]) {
        let mut room = [0; SHEET_ROOM];
        let (sheet, _) = fields::bytes(fields::behind(line, 2), &mut room);
        self.start(sheet)
    }

    // Something done with the meter at hand; nothing, where its bank is longer than the room.
    fn act(&mut self, line: &[u8]) -> io::Result<()> {
        let Some(bank) = self.bank_room.get_mut(..self.bank_size) else {
            return Ok(());
        };
        let mut meter = Meter {
            out: self.out,
            sheet: self.sheet_room.get(..self.sheet_size).unwrap_or(&[]),
            bank,
        };
        meter.act(line)
    }

    // One line: a new meter, or something done with the one at hand.
    pub(crate) fn run(&mut self, line: &[u8]) -> io::Result<()> {
        match line.first() {
            Some(b'U') => self.start(&makers::ux()),
            Some(b'A') => self.start(&makers::aswe_40()),
            Some(b'S') => self.start_made_up(line),
            Some(b'B') => self.bank_size = usize::from(fields::word_at(line, 2)),
            _ => return self.act(line),
        }
        Ok(())
    }
}

// The frame in the front of a room with its check behind it; none for a frame that is too long.
fn sealed(room: &mut [u8; FRAME_ROOM], n: usize) -> Option<&[u8]> {
    if FRAME_ROOM - 2 < n {
        return None;
    }
    check_value::seal(room, n);
    room.get(..n + 2)
}

// The frame in the front of a room as it is sent: as it is where it is whole, else with its check.
fn sent(room: &mut [u8; FRAME_ROOM], n: usize, whole: bool) -> Option<&[u8]> {
    if whole {
        return room.get(..n);
    }
    sealed(room, n)
}

// A sheet and its bank.
#[derive(Drop)]
struct Meter<'a, 'b> {
    out: Stdout,
    sheet: &'a [u8],
    bank: &'b mut [u8],
}

impl Meter<'_, '_> {
    fn act(&mut self, line: &[u8]) -> io::Result<()> {
        match line.first() {
            Some(b'F') => {
                let _ = bank::fresh(self.sheet, self.bank);
                Ok(())
            }
            Some(b'P') => {
                self.put(fields::word_at(line, 2), fields::word_at(line, 7));
                Ok(())
            }
            Some(b'T') => {
                self.post(line);
                Ok(())
            }
            Some(b'Q') => self.ask(line, false),
            Some(b'W') => self.ask(line, true),
            Some(b'H') => self.held(line),
            Some(b'N') => self.number(line),
            _ => Ok(()),
        }
    }

    // Puts a word into the bank.
    fn put(&mut self, place: u16, word: u16) {
        words::store_word(self.bank, 2 * usize::from(place), word);
    }

    // What the bank holds at a place.
    fn word_at(&self, place: u16) -> u16 {
        words::word_at(self.bank, 2 * usize::from(place))
    }

    // What is expected of the bank at a place, and what it holds.
    fn held(&self, line: &[u8]) -> io::Result<()> {
        let got = self.word_at(fields::word_at(line, 2));
        let expected = fields::word_at(line, 7);
        results::compare(self.out, fields::behind(line, 12), expected, got)
    }

    // Posts words from an address upward.
    fn post(&mut self, line: &[u8]) {
        let address = u32::from(fields::word_at(line, 2));
        let mut room = [0; POST_ROOM];
        let (words, _) = fields::bytes(fields::behind(line, 7), &mut room);
        let _ = bank::post(self.sheet, self.bank, address, words);
    }

    // None of the sheets here has a record area: the ring has no byte.
    fn answer(&mut self, frame: &[u8], buffer: &mut [u8]) -> Result<Answered, Refusal> {
        meter::answer(self.sheet, self.bank, &[], frame, buffer)
    }

    // A frame and its reply, where none stands for silence: without their checks where `whole` is false.
    fn ask(&mut self, line: &[u8], whole: bool) -> io::Result<()> {
        let mut frame_room = [0; FRAME_ROOM];
        let (frame, behind) = fields::bytes(fields::behind(line, 2), &mut frame_room);
        let n = frame.len();
        let mut reply_room = [0; FRAME_ROOM];
        let (reply, name) = fields::bytes(behind, &mut reply_room);
        match sent(&mut frame_room, n, whole) {
            Some(frame) => self.ask_whole(name, frame, reply),
            None => println!(self.out; "a frame that is too long, WRONG"),
        }
    }

    // Runs a frame with its check, and compares what it gets with a reply without its check, at the rate from before.
    fn ask_whole(&mut self, name: &[u8], frame: &[u8], reply: &[u8]) -> io::Result<()> {
        let rate = self.word_at(rows::rate_place(self.sheet));
        let bank_before = check_value::value_of(self.bank);
        let mut buffer = [FILL; frame::LEAST_BUFFER];
        let answered = self.answer(frame, &mut buffer);
        let good = if reply.is_empty() {
            let bank_kept = check_value::value_of(self.bank) == bank_before;
            results::is_silence(answered, &buffer, bank_kept)
        } else {
            results::is_reply(answered, &buffer, reply, rate)
        };
        let got = results::reply(answered, &buffer);
        results::compare_replies(self.out, name, reply, got, good)
    }

    // The number that a frame gets, with an answer buffer of a given size.
    fn number(&mut self, line: &[u8]) -> io::Result<()> {
        let expected = fields::word_at(line, 2);
        let size = usize::from(fields::word_at(line, 7));
        let mut room = [0; FRAME_ROOM];
        let (frame, name) = fields::bytes(fields::behind(line, 12), &mut room);
        let n = frame.len();
        let Some(frame) = sealed(&mut room, n) else {
            return println!(self.out; "a frame that is too long, WRONG");
        };
        let mut buffer = [FILL; FRAME_ROOM];
        let Some(buffer) = buffer.get_mut(..size) else {
            return println!(self.out; "a buffer that is too long, WRONG");
        };
        self.number_within(name, expected, frame, buffer)
    }

    // A number that a frame gets; where it is not 0, the bank and the buffer stay as they were. Their check values tell it, with no copy.
    fn number_within(
        &mut self,
        name: &[u8],
        expected: u16,
        frame: &[u8],
        buffer: &mut [u8],
    ) -> io::Result<()> {
        let bank_before = check_value::value_of(self.bank);
        let buffer_before = check_value::value_of(buffer);
        let got = results::number(self.answer(frame, buffer));
        results::compare(self.out, name, expected, got)?;
        if expected != 0 && check_value::value_of(self.bank) != bank_before {
            println!(self.out; "  the bank changed, WRONG")?;
        }
        if expected != 0 && check_value::value_of(buffer) != buffer_before {
            println!(self.out; "  the buffer changed, WRONG")?;
        }
        Ok(())
    }
}
