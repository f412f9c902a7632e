ghost use Rattle.std.specs.Prelude.{◌≡◌, ◌<◌};
ghost use Rattle.std.specs.Iterator.{YieldsFirst, item_count};
ghost use Rattle.board_text.specs.Digits.{all_digits, is_digit, value, digit, two, four, hex2, hex4, fours};

// Whether the byte is a digit, 0 to 9 or A to F.
fn is_digit(byte: u8) -> bool
    ensures { result ≡ is_digit byte }
{
    byte.is_ascii_digit() || matches!(byte, b'A'..=b'F')
}

// Whether all bytes are digits.
pub(crate) fn all_digits(bytes: &[u8]) -> bool
    ensures { result ≡ all_digits bytes.now }
{
    bytes.iter().all(|byte| is_digit(*byte))
}

// What a digit counts; another byte counts 0. Written out, since `to_digit` takes small letters too.
fn value_of(byte: u8) -> u8
    ensures value { result ≡ value byte }
    ensures bound { result < 16 }
{
    match byte {
        b'0'..=b'9' => byte - b'0',
        b'A'..=b'F' => byte - b'A' + 10,
        _ => 0,
    }
}

// The digit that counts `n`. Written out, since `from_digit` gives small letters.
fn digit_of(n: u8) -> u8
    requires { n < 16 }
    ensures { result ≡ digit n }
{
    if n < 10 { b'0' + n } else { b'A' + (n - 10) }
}

// The number that two digits write.
pub(crate) fn two_digits(a: u8, b: u8) -> u8
    ensures { result ≡ two a b }
{
    16 * value_of(a) + value_of(b)
}

// The number that four digits write.
pub(crate) fn four_digits(a: u8, b: u8, c: u8, d: u8) -> u16
    ensures { result ≡ four a b c d }
{
    u16::from_be_bytes([two_digits(a, b), two_digits(c, d)])
}

// The two digits that write `n`.
pub(crate) fn hex2(n: u8) -> [u8; 2]
    ensures { result ≡ hex2 n }
{
    [digit_of(n / 16), digit_of(n % 16)]
}

// The four digits that write `n`.
pub(crate) fn hex4(n: u16) -> [u8; 4]
    ensures { result ≡ hex4 n }
{
    let [high, low] = n.to_be_bytes();
    let [a, b] = hex2(high);
    let [c, d] = hex2(low);
    [a, b, c, d]
}

// The numbers that digits write, four digits each. An iterator of its own, since pieces of `chunks_exact` do
// not show that each has four.
#[derive(Clone, Copy)]
pub(crate) struct Fours<'a> {
    pub(crate) digits: &'a [u8],
}

impl Iterator for Fours<'_> {
    type Item = u16;

    ghost next_gives = { YieldsFirst (λ f. fours f.digits.now) };

    ghost remaining = { item_count (λ f. fours f.digits.now) };

    fn next(&mut self) -> Option<u16> {
        let [a, b, c, d, rest @ ..] = self.digits else {
            return None;
        };
        self.digits = rest;
        Some(four_digits(*a, *b, *c, *d))
    }
}
