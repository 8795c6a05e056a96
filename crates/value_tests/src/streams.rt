//! A writer that keeps back what was not flushed: lines that are sent are flushed, and none is sent while the next line is at hand.

use review_json_lines::Output;
use std::io;
use std::io::Write;
use std::test::Fail;

/// What was written, and how many bytes of it were flushed.
#[derive(Drop)]
struct Written {
    bytes: Vec<u8>,
    flushed: usize,
}

impl Write for Written {
    fn write(&mut self, buf: &[u8]) -> io::Result<usize> {
        self.bytes.extend_from_slice(buf)?;
        Ok(buf.len())
    }

    fn flush(&mut self) -> io::Result<()> {
        self.flushed = self.bytes.len();
        Ok(())
    }
}

#[test]
fn what_is_sent_is_flushed(rt: HostRuntime) -> Result<(), Fail> {
    let mut writer = Written {
        bytes: Vec::new(rt.alloc()),
        flushed: 0,
    };
    let mut output = Output::new(rt.alloc());
    output.add("one\n")?;
    assert!(rt; output.send_unless(true, &mut writer).is_ok());
    assert!(rt; writer.bytes.len() == 0);
    output.add("two\n")?;
    assert!(rt; output.send_unless(false, &mut writer).is_ok());
    assert!(rt; writer.flushed == 8);
    output.add("three\n")?;
    assert!(rt; output.send(&mut writer).is_ok());
    assert!(rt; writer.flushed == 14);
    Ok(())
}
