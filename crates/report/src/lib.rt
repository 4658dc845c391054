// The text of a settlement: a heading, one line an interval, and the sum, written into a lent buffer.
#![tactic(auto)]

ghost use Rattle.std.specs.Prelude.{◌≡◌, ◌+◌, ◌*◌, ◌≤◌, length};
ghost use Rattle.report.specs.Texts.{report_refusal, report_text, rows_text, most_bytes, Reported};

use refusal::Refuse;
use settlement::Line;

mod page;
mod row;

use page::Page;
use row::{line_width, width};

const HEADING: &[u8] = b"day interval days baseline metered reduction\n";

const SUM: &[u8] = b"sum ";

#[derive(Clone, Copy, PartialEq, Eq, Debug)]
pub enum ReportFault {
    // the text does not fit the buffer
    ShortBuffer = 17,
}

impl Refuse for ReportFault {
    ghost refusal = { report_refusal };

    fn number(&self) -> u8 {
        *self as u8
    }
}

// How many bytes the lines take; no count of lines overflows it.
fn lines_width(lines: &[Line]) -> u128
    ensures exact { result ≡ length (rows_text lines.now) }
    ensures small { result ≤ 126 * length lines.now }
{
    lines.iter().map(|line| line_width(line) as u128).sum()
}

// How many bytes the text takes.
fn text_width(lines: &[Line], sum: i64) -> u128
    ensures exact { result ≡ length (report_text lines.now sum) }
    ensures most { result ≤ most_bytes (length lines.now) }
{
    let around = HEADING.len() + SUM.len() + width(sum);
    around as u128 + lines_width(lines)
}

// Fills the buffer with the heading, the lines and the sum, and answers how many bytes these are; where they do not fit,
// the buffer stays as it was. A buffer of `most_bytes` always holds them, whatever the numbers.
pub fn report(lines: &[Line], sum: i64, text: &mut [u8]) -> Result<usize, ReportFault>
    ensures reported { Reported lines.now sum text.old text.new result }
    ensures most { length (report_text lines.now sum) ≤ most_bytes (length lines.now) }
{
    if text_width(lines, sum) > text.len() as u128 {
        return Err(ReportFault::ShortBuffer);
    }
    let mut page = Page { text, at: 0 };
    page.put(HEADING);
    for line in lines {
        page.put_line(line);
    }
    page.put(SUM);
    page.put_number(sum, b'\n');
    Ok(page.at)
}
