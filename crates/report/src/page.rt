// A lent buffer that is written from its start on.
ghost use Rattle.std.specs.Prelude.{◌+◌, ◌≤◌, length};
ghost use Rattle.report.specs.Texts.{piece, row_text, Written};

use crate::row::columns;
use itoa::Buffer;
use settlement::Line;

// The buffer, and how many of its bytes are written.
// A `std::io::Cursor` would write a part of what does not fit, and answer a `Result` that says nothing here.
#[derive(Drop)]
pub(crate) struct Page<'a> {
    pub(crate) text: &'a mut [u8],
    pub(crate) at: usize,
}

impl Page<'_> {
    // Writes bytes after those that are written.
    pub(crate) fn put(&mut self, bytes: &[u8])
        requires { self.old.at + length bytes.now ≤ length self.old.text.now }
        ensures { Written self.old bytes.now self.new }
    {
        let next = self.at + bytes.len();
        self.text[self.at..next].copy_from_slice(bytes);
        self.at = next;
    }

    // Writes a number and the byte that ends it: the minus, the digits and the end, as `width` counts them.
    pub(crate) fn put_number(&mut self, number: i64, end: u8)
        requires { self.old.at + length (piece number end) ≤ length self.old.text.now }
        ensures { Written self.old (piece number end) self.new }
    {
        if number < 0 {
            self.put(b"-");
        }
        self.put(Buffer::new().format(number.unsigned_abs()).as_bytes());
        self.put(&[end]);
    }

    // Writes a line: its numbers with one space between them, and a line feed.
    // Not by a `Display`: a `fmt` promises its text only where it answers `Ok`, and never that it does where there is room.
    pub(crate) fn put_line(&mut self, line: &Line)
        requires { self.old.at + length (row_text line.now) ≤ length self.old.text.now }
        ensures { Written self.old (row_text line.now) self.new }
    {
        for (number, end) in columns(line) {
            self.put_number(number, end);
        }
    }
}
