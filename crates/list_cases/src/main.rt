// Listings of the makers' sheets, and of sheets that are refused.
#![tactic(auto)]

ghost use Rattle.std.specs.Prelude.{◌<◌};

use std::io;
use std::io::Stdout;

fn list(out: Stdout, what: &str, sheet: &[u8]) -> io::Result<()> {
    println!(out; "{what}")?;
    let _ = listing_print::print(out, sheet);
    Ok(())
}

// A sheet with a byte more.
fn longer(sheet: &[u8; 256]) -> [u8; 257] {
    let mut long = [0u8; 257];
    long[..256].copy_from_slice(sheet);
    long
}

// A sheet without its last byte.
fn shorter(sheet: &[u8; 256]) -> &[u8] {
    &sheet[..255]
}

// A sheet with another byte at a place.
fn changed<const N: usize>(mut sheet: [u8; N], at: usize, byte: u8) -> [u8; N]
    requires { at < N }
{
    sheet[at] = byte;
    sheet
}

// Version 1 does not know access 2, which the AS-WE 40 sheet has.
fn list_versions(out: Stdout, ux: [u8; 256]) -> io::Result<()> {
    list(out, "UX15/25, version 2", &changed(ux, 1, 2))?;
    list(out, "UX15/25, version 3", &changed(ux, 1, 3))?;
    list(
        out,
        "AS-WE 40, version 1",
        &changed(makers::aswe_40(), 1, 1),
    )
}

fn main(rt: HostRuntime) -> io::Result<()> {
    let out = rt.stdout();
    let ux = makers::ux();
    list(out, "UX15/25", &ux)?;
    list(out, "AS-WE 40", &makers::aswe_40())?;
    list(out, "AS-WE 50", &makers::aswe_50())?;
    list(out, "AS-WE 80", &makers::aswe_80())?;
    list_versions(out, ux)?;
    list(out, "UX15/25, word 11 not zero", &changed(ux, 23, 1))?;
    list(out, "UX15/25, one byte too many", &longer(&ux))?;
    list(out, "UX15/25, one byte too few", shorter(&ux))?;
    list(out, "nothing", b"")
}
