//! Words and numbers at the front of a line. Where a word or a number is not there, or not whole, the error is how many bytes are
//! left behind the longest beginning of it.

ghost use Rattle.std.specs.Prelude.{◌≡◌, ◌+◌, ◌-◌, ◌*◌, ◌^◌, ◌<◌, ◌≤◌, Some, None, IfOk, if◌then◌else◌};
ghost use Rattle.sched_print.specs.Readers.{Done, Word, read, Gives, word_at, goes_on, digits_at, number_at, end_at, better_reading as better_of};
ghost use Rattle.sched_print.specs.Forms.{unit_at, vcpu_at};

use sched_base::{DomId, UnitId, VcpuId};
use sched_model::event::Entry;

/// How many bytes are left behind what was read.
pub type Left = usize;

/// The bytes behind the word.
#[tactic(auto, unfolding(crate::specs::Readers::word_at))]
pub fn word<'a>(bytes: &'a [u8], word: &[u8]) -> Result<&'a [u8], Left>
    ensures { Gives (λ x. x.now) result (word_at word.now bytes.now) }
{
    let mut rest = bytes;
    for c in word {
        match rest {
            [] => return Err(0),
            [b, others @ ..] => {
                if *b != *c {
                    return Err(rest.len());
                }
                rest = others;
            }
        }
    }
    Ok(rest)
}

/// The number with a further digit, where the byte is a digit and the number stays below the bound.
fn with_digit(high: u64, number: u64, b: u8) -> Option<u64>
    ensures { result ≡ (if goes_on high number b then Some (10 * number + (b - 48)) else None) }
{
    if b < b'0' || b'9' < b {
        return None;
    }
    if number < 1_000_000_000_000_000_000 {
        let next = 10 * number + u64::from(b - b'0');
        return if next < high { Some(next) } else { None };
    }
    let next = 10 * u128::from(number) + u128::from(b - b'0');
    if next < u128::from(high) {
        Some(next as u64)
    } else {
        None
    }
}

/// The number that began with n, as long as it is below the bound, and the bytes behind its digits.
#[tactic(auto, unfolding(crate::specs::Readers::digits_at))]
fn digits(high: u64, first: u64, bytes: &[u8]) -> (u64, &[u8])
    requires { first < high }
    ensures value { (result.0, result.1.now) ≡ digits_at high first bytes.now }
    ensures below { result.0 < high }
    ensures least { first ≤ result.0 }
{
    let mut n = first;
    let mut rest = bytes;
    while let [b, others @ ..] = rest {
        match with_digit(high, n, *b) {
            Some(next) => {
                n = next;
                rest = others;
            }
            None => break,
        }
    }
    (n, rest)
}

/// The number at the front, which is at least `low` and below `high`, and the bytes behind it. It has no leading zero.
#[tactic(auto, unfolding(crate::specs::Readers::number_at))]
pub fn number(bytes: &[u8], low: u64, high: u64) -> Result<(u64, &[u8]), Left>
    requires low { low ≤ 1 }
    requires high { 0 < high }
    ensures value { Gives (λ x. (x.0, x.1.now)) result (number_at low high bytes.now) }
    ensures least { IfOk result (λ x. low ≤ x.0) }
    ensures below { IfOk result (λ x. x.0 < high) }
{
    match bytes {
        [] => Err(0),
        [b'0', rest @ ..] if low == 0 => Ok((0, rest)),
        [b'0', ..] => Err(bytes.len()),
        [b, rest @ ..] => match with_digit(high, 0, *b) {
            Some(first) => Ok(digits(high, first, rest)),
            None => Err(bytes.len()),
        },
    }
}

/// A number below 2^63.
pub fn any_number(bytes: &[u8]) -> Result<(u64, &[u8]), Left>
    ensures value { Gives (λ x. (x.0, x.1.now)) result (number_at 0 (2 ^ 63) bytes.now) }
    ensures below { IfOk result (λ x. x.0 < 2 ^ 63) }
{
    number(bytes, 0, 1 << 63)
}

/// The number of a thing of which there are at most `high`.
pub fn small_number(bytes: &[u8], high: u8) -> Result<(u8, &[u8]), Left>
    requires { 0 < high }
    ensures { Gives (λ x. (x.0, x.1.now)) result (number_at 0 high bytes.now) }
{
    let (n, rest) = number(bytes, 0, u64::from(high))?;
    Ok((n as u8, rest))
}

/// The unit at the front, behind a space.
pub fn unit(bytes: &[u8]) -> Result<(UnitId, &[u8]), Left>
    ensures { Gives (λ x. (x.0, x.1.now)) result (unit_at bytes.now) }
{
    let rest = word(bytes, b" d")?;
    let (dom, rest) = small_number(rest, 64)?;
    let rest = word(rest, b"u")?;
    let (n, rest) = small_number(rest, 32)?;
    Ok((UnitId { dom: DomId(dom), n }, rest))
}

/// The vCPU at the front, behind a space.
pub fn vcpu(bytes: &[u8]) -> Result<(VcpuId, &[u8]), Left>
    ensures { Gives (λ x. (x.0, x.1.now)) result (vcpu_at bytes.now) }
{
    let rest = word(bytes, b" d")?;
    let (dom, rest) = small_number(rest, 64)?;
    let rest = word(rest, b"v")?;
    let (n, rest) = small_number(rest, 32)?;
    Ok((VcpuId { dom: DomId(dom), n }, rest))
}

/// The entry, where nothing is left of its text.
pub fn end(bytes: &[u8], e: Entry) -> Result<Entry, Left>
    ensures { result ≡ end_at e bytes.now }
{
    if bytes.is_empty() {
        Ok(e)
    } else {
        Err(bytes.len())
    }
}

/// The first that was read, or the one that came further.
pub fn better(first: Result<Entry, Left>, second: Result<Entry, Left>) -> Result<Entry, Left>
    ensures { result ≡ better_of first second }
{
    match (first, second) {
        (Ok(e), _) => Ok(e),
        (Err(_), Ok(e)) => Ok(e),
        (Err(left), Err(other)) => Err(left.min(other)),
    }
}

/// The entry, where the word is there and then nothing is left of its text.
pub fn closing(bytes: &[u8], last: &[u8], e: Entry) -> Result<Entry, Left>
    ensures { result ≡ read (Word last.now (Done e)) bytes.now }
{
    let rest = word(bytes, last)?;
    end(rest, e)
}

/// Words with a number behind each, which is read by the function that is named and may be wrapped, and then nothing more: the entry.
macro_rules! reads {
    ($bytes:ident, $($word:literal $field:ident = $read:ident($($limit:literal)?) $(as $wrap:ident)?),+ => $entry:expr) => {{
        let rest = $bytes;
        $(
            let rest = word(rest, $word)?;
            let ($field, rest) = $read(rest $(, $limit)?)?;
            $(let $field = $wrap($field);)?
        )+
        end(rest, $entry)
    }};
}

pub(crate) use reads;
