// What a line says, and how many bytes it takes.
ghost use Rattle.std.specs.Prelude.{◌≡◌, ◌+◌, ◌^◌, ◌≤◌, [], ◌∷◌, length, pos, decimal};
ghost use Rattle.std.specs.Fmt.{signed_decimal};
ghost use Rattle.report.specs.Texts.{row_text};

use settlement::Line;

// The numbers of a line, each with the byte that ends it.
pub(crate) fn columns(line: &Line) -> [(i64, u8); 6]
    ensures { result ≡ (pos line.now.day, 32) ∷ (pos line.now.interval, 32) ∷ (pos line.now.days, 32)
        ∷ (line.now.baseline, 32) ∷ (pos line.now.metered, 32) ∷ (line.now.reduction, 10) ∷ [] }
{
    [
        (line.day.into(), b' '),
        (line.interval.into(), b' '),
        (line.days.into(), b' '),
        (line.baseline.into(), b' '),
        (line.metered.into(), b' '),
        (line.reduction.into(), b'\n'),
    ]
}

// How many digits a number has.
fn digits(number: u64) -> usize
    ensures exact { result ≡ length (decimal number) }
    ensures small { number ≤ 2 ^ 63 → result ≤ 19 }
{
    match number.checked_ilog10() {
        Some(power) => power as usize + 1,
        None => 1,
    }
}

// How many bytes a number and what ends it take: by its digits, since to spell it only to count them would take longer.
pub(crate) fn width(number: i64) -> usize
    ensures exact { result ≡ length (signed_decimal number) + 1 }
    ensures small { result ≤ 21 }
{
    usize::from(number < 0) + digits(number.unsigned_abs()) + 1
}

// How many bytes a line takes: at most 21 a number.
pub(crate) fn line_width(line: &Line) -> usize
    ensures exact { result ≡ length (row_text line.now) }
    ensures small { result ≤ 126 }
{
    columns(line).iter().map(|(number, _)| width(*number)).sum()
}
