// Lines on standard output.
use std::io;
use std::io::Stdout;

fn column(out: Stdout, x: u16) -> io::Result<()> {
    print!(out; " {x}")
}

fn columns(out: Stdout, row: &[u16]) -> io::Result<()> {
    for x in row {
        column(out, *x)?;
    }
    Ok(())
}

pub fn line(out: Stdout, name: &[u8], row: &[u16]) -> io::Result<()> {
    out.write_all(name)?;
    columns(out, row)?;
    println!(out)
}
