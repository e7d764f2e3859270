// The makers' sheets as files. One byte of standard input says which:
//   h    the C header with all four sheets, include/cedarskein_sheets.h
//   1    the bytes of the UX15/25 sheet
//   2, 3, 4    the bytes of the AS-WE sheet, bore 40, 50, 80
// Any other byte, or none, gives a line that says so.
#![tactic(auto)]

ghost use Rattle.std.specs.Prelude.{◌<◌};

use std::io::{Read, Stdout};
use std::{fmt, io};

// The bytes of a sheet's header, of an area row and of an item row.
const HEADER: usize = 24;

const AREA_ROW: usize = 8;

const ITEM_ROW: usize = 12;

// A row as C has it: each byte behind a space, and a comma behind it. It is printed at once: a print for each byte costs more than the byte.
#[derive(Clone, Copy)]
struct Row<'a> {
    bytes: &'a [u8],
}

impl fmt::Display for Row<'_> {
    fn fmt<W: fmt::Write>(&self, f: &mut fmt::Formatter<W>) -> fmt::Result {
        for byte in self.bytes {
            write!(f, " 0x{byte:02X},")?;
        }
        Ok(())
    }
}

// A line for each row of so many bytes.
fn say_rows(out: Stdout, rows: &[u8], width: usize) -> io::Result<()>
    requires { 0 < width }
{
    for row in rows.chunks(width) {
        let row = Row { bytes: row };
        println!(out; "   {row}")?;
    }
    Ok(())
}

// Two lines for the header, and one for each area and each item.
fn say_entries(out: Stdout, sheet: &[u8]) -> io::Result<()> {
    let areas = AREA_ROW * usize::from(rows::area_count(sheet));
    let Some((header, behind)) = sheet.split_at_checked(HEADER) else {
        return Ok(());
    };
    let Some((areas, items)) = behind.split_at_checked(areas) else {
        return Ok(());
    };
    say_rows(out, header, ITEM_ROW)?;
    say_rows(out, areas, AREA_ROW)?;
    say_rows(out, items, ITEM_ROW)
}

// A sheet as an array of C, with its size and that of its bank, by its name in both cases.
fn say_array(out: Stdout, title: &str, upper: &str, lower: &str, sheet: &[u8]) -> io::Result<()> {
    let bank_size = 2 * (usize::from(rows::bank_words(sheet)) + 1);
    let sheet_size = sheet.len();
    println!(out; "\n/* {title} */")?;
    println!(out; "#define CEDARSKEIN_{upper}_BANK_SIZE {bank_size}")?;
    println!(out; "#define CEDARSKEIN_{upper}_SHEET_SIZE {sheet_size}")?;
    println!(out;
        "static const uint8_t cedarskein_{lower}_sheet[CEDARSKEIN_{upper}_SHEET_SIZE] = {{"
    )?;
    say_entries(out, sheet)?;
    println!(out; "}};")
}

fn say_front(out: Stdout) -> io::Result<()> {
    print!(out;
        "/* The makers' sheets, a row of the sheet to a line: the header in two lines, the areas, the items. */\n\
        /* Written by the program crates/sheet_files from the sheets that are proved to be the maps of documents 01 and 02. */\n\
        #ifndef CEDARSKEIN_SHEETS_H\n\
        #define CEDARSKEIN_SHEETS_H\n\n\
        #include <stdint.h>\n",
    )
}

fn say_header(out: Stdout) -> io::Result<()> {
    say_front(out)?;
    say_array(out, "UX15/25", "UX", "ux", &makers::ux())?;
    say_array(
        out,
        "AS-WE, bore 40",
        "ASWE_40",
        "aswe_40",
        &makers::aswe_40(),
    )?;
    say_array(
        out,
        "AS-WE, bore 50",
        "ASWE_50",
        "aswe_50",
        &makers::aswe_50(),
    )?;
    say_array(
        out,
        "AS-WE, bore 80",
        "ASWE_80",
        "aswe_80",
        &makers::aswe_80(),
    )?;
    println!(out; "\n#endif")
}

fn say_file(out: Stdout, which: u8) -> io::Result<()> {
    match which {
        b'h' => say_header(out),
        b'1' => out.write_all(&makers::ux()),
        b'2' => out.write_all(&makers::aswe_40()),
        b'3' => out.write_all(&makers::aswe_50()),
        b'4' => out.write_all(&makers::aswe_80()),
        _ => println!(out; "which file: h, 1, 2, 3 or 4"),
    }
}

fn main(rt: HostRuntime) -> io::Result<()> {
    let mut which = [0u8; 1];
    rt.stdin().read(&mut which)?;
    say_file(rt.stdout(), which[0])
}
