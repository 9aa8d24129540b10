// Words, decimal numbers and lines in lent bytes.
#![tactic(auto)]

ghost use Rattle.std.specs.Prelude.{◌≡◌, ◌+◌, ◌*◌, ◌≤◌, [], ◌∷◌, length};
ghost use Rattle.ray_tracing.specs.Report.{decimal, spaced, line, reported_of, Puts};
ghost use Rattle.ray_tracing.specs.Sizes.{longest_line};
ghost use Rattle.report_text.specs.Put.{Put};

use ray_tracing::OutputTooShort;
use wire::put_bytes;

// Each of these writes from index `at` on and returns the index past what it wrote.

pub fn put(out: &mut [u8], at: usize, text: &[u8]) -> usize
    requires { at + length text.now ≤ length out.old }
    ensures { Put out.old at text.now result out.new }
{
    put_bytes(out, at, text);
    at + text.len()
}

fn digit(n: u64) -> u8
    requires { n ≤ 9 }
    ensures { result ≡ 48 + n }
{
    (48 + n) as u8
}

// By hand: of what the library's formatting writes no contract speaks. The digits come last first, so they go into an array from its end on.
pub fn put_decimal(out: &mut [u8], at: usize, n: u64) -> usize
    requires { at + 20 ≤ length out.old }
    ensures { Put out.old at (decimal n) result out.new }
{
    let mut digits = [0u8; 20];
    let mut first: usize = 20;
    let mut rest = n;
    // A `while`: no count, since how many digits a number has is not known before.
    while 10 <= rest {
        first -= 1;
        digits[first] = digit(rest % 10);
        rest /= 10;
    }
    first -= 1;
    digits[first] = digit(rest);
    put(out, at, &digits[first..20])
}

pub fn put_byte(out: &mut [u8], at: usize, b: u8) -> usize
    requires { at + 1 ≤ length out.old }
    ensures { Put out.old at (b ∷ []) result out.new }
{
    out[at] = b;
    at + 1
}

// A space before it.
fn put_number(out: &mut [u8], at: usize, n: u64) -> usize
    requires { at + 21 ≤ length out.old }
    ensures { Put out.old at (32 ∷ decimal n) result out.new }
{
    let next = put_byte(out, at, b' ');
    put_decimal(out, next, n)
}

fn put_numbers(out: &mut [u8], at: usize, numbers: &[u64]) -> usize
    requires { at + length numbers.now * 21 ≤ length out.old }
    ensures { Put out.old at (spaced numbers.now) result out.new }
{
    let mut end = at;
    for &n in numbers {
        end = put_number(out, end, n);
    }
    end
}

// A word, its numbers, a newline.
pub fn put_line(out: &mut [u8], at: usize, word: &[u8], numbers: &[u64]) -> usize
    requires { at + longest_line word.now (length numbers.now) ≤ length out.old }
    ensures { Put out.old at (line word.now numbers.now) result out.new }
{
    let named = put(out, at, word);
    let numbered = put_numbers(out, named, numbers);
    put_byte(out, numbered, b'\n')
}

// The whole text, if it fits into what is lent.
pub fn put_text(out: &mut [u8], text: &[u8]) -> Result<usize, OutputTooShort>
    ensures { Puts text.now out.old (reported_of result) out.new }
{
    if out.len() < text.len() {
        return Err(OutputTooShort);
    }
    Ok(put(out, 0, text))
}
