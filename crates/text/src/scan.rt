// Bytes and numbers at a place in a text, with the place behind them; `None` where they do not stand there.
ghost use Rattle.std.specs.Prelude.{◌≡◌, ◌+◌, ◌*◌, ◌≤◌, SomeIff};
ghost use Rattle.grammar.specs.Numbers.{greatest};
ghost use Rattle.grammar.specs.Inside.Reader.{behind, word_at, digit_at, number_at, field_at};

use grammar::Number;

// No number and no end of a window is greater.
pub(crate) const GREATEST: u32 = 1_000_000_000;

const MOST_DIGITS: u32 = 10;

// The place behind a byte that must stand there.
#[tactic(auto, unfolding(grammar::specs::Inside::Reader::behind))]
pub(crate) fn after(text: &[u8], at: usize, c: u8) -> Option<usize>
    ensures { result ≡ behind text.now at c }
{
    (*text.get(at)? == c).then_some(at + 1)
}

// The place behind a word and its space.
pub(crate) fn after_word(text: &[u8], at: usize, word: &[u8]) -> Option<usize>
    ensures { result ≡ word_at word.now text.now at }
{
    let mut next = at;
    for &c in word {
        next = after(text, next, c)?;
    }
    after(text, next, b' ')
}

// What a digit counts. By a subtraction, and the next in wider numbers. Tried with `to_digit`, `checked_mul` and `filter`, a text of long numbers took 1.4 times
// as long.
#[tactic(auto, unfolding(grammar::specs::Inside::Reader::digit_at))]
fn digit(text: &[u8], at: usize) -> Option<u32>
    ensures { result ≡ digit_at text.now at }
{
    let c = *text.get(at)?;
    if c.is_ascii_digit() {
        Some(u32::from(c - b'0'))
    } else {
        None
    }
}

// A number with one digit more, where it is within the limit. In 64 bits, so that it is not cut from digit to digit.
fn longer(value: u64, d: u32) -> Option<u64>
    requires { value ≤ greatest }
    ensures { SomeIff result (10 * value + d ≤ greatest) (10 * value + d) }
{
    let value = 10 * value + u64::from(d);
    if value <= u64::from(GREATEST) {
        Some(value)
    } else {
        None
    }
}

// No plainer with a range for the places: the place behind the digits is part of the answer.
#[tactic(auto, unfolding(grammar::specs::Inside::Reader::number_at, grammar::specs::Inside::Reader::digit_at))]
pub(crate) fn number(text: &[u8], at: usize) -> Option<Number>
    ensures { result ≡ number_at text.now at }
{
    digit(text, at)?;
    let mut next = at;
    let mut value = 0;
    for _ in 0..MOST_DIGITS {
        let Some(d) = digit(text, next) else { break };
        value = longer(value, d)?;
        next += 1;
    }
    Some(Number {
        value: value as u32,
        next,
    })
}

// A number and the byte behind it.
#[tactic(auto, unfolding(grammar::specs::Inside::Reader::field_at, grammar::specs::Inside::Reader::and_then))]
pub(crate) fn field(text: &[u8], at: usize, c: u8) -> Option<Number>
    ensures { result ≡ field_at text.now at c }
{
    let n = number(text, at)?;
    let next = after(text, n.next, c)?;
    Some(Number { next, ..n })
}
