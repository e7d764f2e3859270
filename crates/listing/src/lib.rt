// The listing of a sheet, line by line.
#![tactic(auto)]

ghost use Rattle.std.specs.Prelude.{◌≡◌, [], ◌++◌};
ghost use Rattle.range.specs.Range.{number_of};
ghost use Rattle.sheet_rules.specs.Rows.{areas, item_at};
ghost use Rattle.listing.specs.Text.{decimal, signed_decimal, letter_of, summary_text, item_text};
ghost use Rattle.listing.specs.Line.{line_of, with_text};

mod append;

// A line of text: its bytes, and zeros behind them.
// A length beside the bytes: the promises name both, by `line_of`, and a library has no heap.
#[derive(Clone, Copy)]
pub struct Line {
    pub bytes: [u8; 40],
    pub len: usize,
}

// The letter of a kind.
fn letter(kind: u16) -> u8
    ensures { result ≡ letter_of kind }
{
    match kind {
        0 => b'u',
        1 => b's',
        _ => b'p',
    }
}

impl Line {
    // A line with no text.
    fn empty() -> Line
        ensures { result ≡ line_of [] }
    {
        Line {
            bytes: [0; 40],
            len: 0,
        }
    }

    // A value of a kind, as the number that it stands for.
    fn value(self, kind: u16, value: u32) -> Line
        ensures { result ≡ with_text self (signed_decimal (number_of kind value)) }
    {
        self.signed(range::number(kind, value))
    }

    // A number, and in front of it the word for it.
    fn count(self, word: &[u8], count: u16) -> Line
        ensures { result ≡ with_text self (word.now ++ decimal count) }
    {
        self.text(word).decimal(u32::from(count))
    }
}

// The first line: rule L2.
pub fn summary(sheet: &[u8]) -> Line
    ensures { result ≡ line_of (summary_text sheet.now) }
{
    Line::empty()
        .count(b"areas ", rows::area_count(sheet))
        .count(b" items ", rows::item_count(sheet))
        .count(b" bank ", rows::bank_words(sheet))
        .byte(b'\n')
}

// The line of the item row at an index.
pub fn item_line(sheet: &[u8], k: u16) -> Line
    ensures { result ≡ line_of (item_text (areas sheet.now) (item_at sheet.now k)) }
{
    let item = rows::item_row(sheet, rows::area_count(sheet), k);
    Line::empty()
        .hexadecimal(lookup::address_of(sheet, item.place))
        .text(&[b' ', letter(item.kind), b' '])
        .value(item.kind, item.low)
        .byte(b' ')
        .value(item.kind, item.high)
        .byte(b'\n')
}
