// What the programs print beside their own figures. What comes from the text is written as bytes, since it need not be UTF-8.
use std::io;

// The bytes, and the end of the line.
pub fn line(rt: &impl Print, s: &[u8]) -> io::Result<()> {
    rt.write_all(s)?;
    println!(rt)
}

// What a line is about.
pub fn head(rt: &impl Print, s: &[u8]) -> io::Result<()> {
    rt.write_all(s)?;
    print!(rt; ":")
}
