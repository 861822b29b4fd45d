// The listing's lines, as the listing program prints them.
use std::io;
use std::io::Write;

pub(crate) fn listing_lines(out: &mut impl Write, bytes: &[u8]) -> io::Result<()> {
    let mut space = [0u8; 4096];
    let length = text::listing::write_listing(bytes, &mut space).unwrap_or(0);
    out.write_all(space.get(..length).unwrap_or(b""))
}
