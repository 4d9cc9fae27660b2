//! Pages go out in blocks. The number of bytes is counted by hand: a page of 144 lines has 121 bytes for each and a form feed.

use page_text::placed_lines::{PlacedLine, in_order};
use report_streams::devices::ToWrite;
use report_streams::devices::limited::LimitedWriter;
use report_writer::write_pages;
use std::test::Fail;

#[test]
fn blocks_are_large(rt: HostRuntime) -> Result<(), Fail> {
    let mut lines = Vec::new(rt.alloc());
    for page in 1..21 {
        for line in 1..145 {
            let text = [b'8'; 120];
            lines.push(PlacedLine { page, line, text })?;
        }
    }
    assert!(rt; in_order(lines.as_slice(), 144));
    let mut writer = LimitedWriter::new(rt.alloc(), 131_072, None);
    let ended = write_pages(&mut ToWrite::new(&mut writer), lines.as_slice(), 144);
    assert!(rt; ended.is_ok());
    assert_eq!(rt; writer.bytes().len(), 20 * (144 * 121 + 1));
    assert!(rt; writer.writes() <= 20 * (144 * 121 + 1) / 65_536 + 1);
    assert_eq!(rt; writer.flushes(), 1);
    Ok(())
}
