// The line of a pair: both places, the variable and both letters.
ghost use Rattle.std.specs.Prelude.{◌≡◌};
ghost use Rattle.sink.specs.Line.{digit, line};
ghost use Rattle.sink.specs.Readable.{ALineReadsBack};

use crate::pair::Pair;

// The bytes of a line.
pub const WIDTH: usize = 21;

// The number's last digit.
fn digit(n: u32) -> u8
    ensures { result ≡ digit n }
{
    (n % 10) as u8 + b'0'
}

// `000003 000005 000 wr` and a newline. Of a larger number its last digits are written.
// Digit by digit, and not by `{:06}`: a line needs no heap, and that would write a seventh digit and so a wider line.
pub fn line(pair: Pair) -> [u8; WIDTH]
    ensures { result ≡ line pair }
{
    let earlier = pair.earlier.place;
    let later = pair.later.place;
    let variable = u32::from(pair.earlier.number);
    [
        digit(earlier / 100_000),
        digit(earlier / 10_000),
        digit(earlier / 1_000),
        digit(earlier / 100),
        digit(earlier / 10),
        digit(earlier),
        b' ',
        digit(later / 100_000),
        digit(later / 10_000),
        digit(later / 1_000),
        digit(later / 100),
        digit(later / 10),
        digit(later),
        b' ',
        digit(variable / 100),
        digit(variable / 10),
        digit(variable),
        b' ',
        pair.earlier.letter.code(),
        pair.later.letter.code(),
        b'\n',
    ]
}

// What a line tells of its pair.
pub fn a_line_reads_back()
    ensures { ALineReadsBack }
{}
