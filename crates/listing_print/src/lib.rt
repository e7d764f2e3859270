// A sheet's listing on standard output.
#![tactic(auto)]

ghost use Rattle.std.specs.Prelude.{◌≡◌};
ghost use Rattle.sheet_rules.specs.Rules.{sheet_answer};

use listing::Line;
use refusals::Refusal;
use std::io::Stdout;

// Bytes as they are. A write that fails is passed over: what is answered is what the check of the sheet did.
fn print_bytes(out: Stdout, bytes: &[u8]) {
    let _ = out.write_all(bytes);
}

// A line, as far as its length says.
fn print_line(out: Stdout, line: Line) {
    if let Some(text) = line.bytes.get(..line.len) {
        print_bytes(out, text);
    }
}

// The line of each item.
fn print_items(out: Stdout, sheet: &[u8]) {
    for k in 0..rows::item_count(sheet) {
        print_line(out, listing::item_line(sheet, k));
    }
}

// Prints the listing of a sheet, or that it is refused, and answers what its check did. No promise can say what is written.
pub fn print(out: Stdout, sheet: &[u8]) -> Result<(), Refusal>
    ensures { result ≡ sheet_answer sheet.now }
{
    let checked = sheet::check(sheet);
    match checked {
        Ok(()) => {
            print_line(out, listing::summary(sheet));
            print_items(out, sheet);
        }
        Err(_) => {
            print_bytes(out, b"sheet refused\n");
        }
    }
    checked
}
