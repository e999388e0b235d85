// Windows: the readers of an expression, a branch and an atom call each other. Brackets take one from the depth and one from the bytes that are left.
ghost use Rattle.std.specs.Prelude.{◌≡◌, ℕ, ◌+◌, ◌≤◌, Some, SomeIff};
ghost use Rattle.grammar.specs.Numbers.{greatest};
ghost use Rattle.grammar.specs.Windows.{series, parallel, atom, branch, expression};
ghost use Rattle.grammar.specs.Inside.Reader.{ends_at, joined_span, closed_at, span_at, enough, window_at};

use crate::scan::{GREATEST, after, field, number};
use grammar::Span;

const DEEPEST: u32 = 16;

// LO:HI
#[tactic(auto, unfolding(grammar::specs::Inside::Reader::ends_at, grammar::specs::Inside::Reader::and_then))]
fn ends(text: &[u8], at: usize) -> Option<Span>
    ensures { result ≡ ends_at text.now at }
{
    let low = field(text, at, b':')?;
    let high = number(text, low.next)?;
    if low.value > high.value {
        return None;
    }
    Some(Span {
        low: low.value,
        high: high.value,
        next: high.next,
    })
}

// A sum within the limit.
fn sum(a: u32, b: u32) -> Option<u32>
    ensures { SomeIff result (a + b ≤ greatest) (a + b) }
{
    a.checked_add(b).filter(|&sum| sum <= GREATEST)
}

// `+` adds both ends. A sum above the limit is no window.
#[tactic(auto, unfolding(grammar::specs::Inside::Reader::joined_span))]
fn in_series(v: Span, w: Span) -> Option<Span>
    ensures { result ≡ joined_span series v w }
{
    Some(Span {
        low: sum(v.low, w.low)?,
        high: sum(v.high, w.high)?,
        next: w.next,
    })
}

// `|` takes the lesser low and the greater high.
#[tactic(auto, unfolding(grammar::specs::Inside::Reader::joined_span))]
fn in_parallel(v: Span, w: Span) -> Span
    ensures { Some result ≡ joined_span parallel v w }
{
    Span {
        low: v.low.min(w.low),
        high: v.high.max(w.high),
        next: w.next,
    }
}

// A window, with the byte that must stand behind it.
#[tactic(auto, unfolding(grammar::specs::Inside::Reader::closed_at, grammar::specs::Inside::Reader::and_then))]
fn closed(text: &[u8], w: Span, c: u8) -> Option<Span>
    ensures { result ≡ closed_at text.now w c }
{
    let next = after(text, w.next, c)?;
    Some(Span { next, ..w })
}

// An atom and a branch are inlined, so that brackets take one call and not three: a processor foresees some 16 returns, and 48 were half more time.
#[cycle(form)]
#[inline(always)]
fn read_atom(text: &[u8], at: usize, depth: u32) -> Option<Span>
    ensures { (f : ℕ) → enough atom text.now at ≤ f → result ≡ span_at f atom depth text.now at }
{
    let Some(next) = after(text, at, b'(') else {
        return ends(text, at);
    };
    if depth == 0 {
        return None;
    }
    let w = read_expression(text, next, depth - 1)?;
    closed(text, w, b')')
}

// A branch and an expression stay two functions, as in the grammar: one for both would choose byte, join and part by a kind in each turn.
#[cycle(form)]
#[inline(always)]
fn read_branch(text: &[u8], at: usize, depth: u32) -> Option<Span>
    ensures { (f : ℕ) → enough branch text.now at ≤ f → result ≡ span_at f branch depth text.now at }
{
    let mut w = read_atom(text, at, depth)?;
    while let Some(next) = after(text, w.next, b'+') {
        w = in_series(w, read_atom(text, next, depth)?)?;
    }
    Some(w)
}

#[cycle(form)]
fn read_expression(text: &[u8], at: usize, depth: u32) -> Option<Span>
    ensures { (f : ℕ) → enough expression text.now at ≤ f → result ≡ span_at f expression depth text.now at }
{
    let mut w = read_branch(text, at, depth)?;
    while let Some(next) = after(text, w.next, b'|') {
        w = in_parallel(w, read_branch(text, next, depth)?);
    }
    Some(w)
}

// A window to the end of its line.
pub(crate) fn window(text: &[u8], at: usize) -> Option<Span>
    ensures { result ≡ window_at text.now at }
{
    let w = read_expression(text, at, DEEPEST)?;
    closed(text, w, b'\n')
}
