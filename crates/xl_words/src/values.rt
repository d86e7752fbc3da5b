//! What a word stands for.

ghost use Rattle.std.specs.Prelude.{◌≡◌, ◌+◌, ◌^◌, ◌<◌, ◌≤◌, true, length, IfSome};
ghost use Rattle.std.specs.Char.{is_ascii_digit};
ghost use Rattle.std.specs.List.{list_all};
ghost use Rattle.sched_model.specs.CheckedMachine.{IsNumber, IsCheckedWhich, IsGivenNumber};
ghost use Rattle.xl_words.specs.Values.{decimal, spells_number, number_of, which_of, vcpu_of, switch_of, kind_of};

use sched_base::Name;
use sched_model::command::Which;
use sched_model::config::SchedKind;

fn are_digits(bytes: &[u8]) -> bool
    ensures { result ≡ list_all is_ascii_digit bytes.now }
{
    bytes.iter().all(|b| b.is_ascii_digit())
}

/// Whether the bytes are a number as files and commands spell it: `0`, or a digit 1 to 9 and up to 14 digits.
fn is_number(bytes: &[u8]) -> bool
    ensures { result ≡ spells_number bytes.now }
{
    match bytes {
        [] => false,
        [first, digits @ ..] => {
            *first == b'0' && digits.is_empty()
                || b'1' <= *first && *first <= b'9' && digits.len() <= 14 && are_digits(digits)
        }
    }
}

/// The number that the digits write.
fn decimal_value(digits: &[u8]) -> u64
    requires few { length digits.now ≤ 15 }
    requires digits { list_all is_ascii_digit digits.now ≡ true }
    ensures value { result ≡ decimal digits.now }
    ensures small { result < 10 ^ 15 }
{
    let mut value = 0;
    for b in digits {
        value = value * 10 + u64::from(*b - b'0');
    }
    value
}

/// The number that the bytes spell, or `None` where they spell none: `0`, or a digit 1 to 9 and up to 14 digits.
pub fn read_number(bytes: &[u8]) -> Option<u64>
    ensures value { result ≡ number_of bytes.now }
    ensures checked { IfSome result IsNumber }
{
    if is_number(bytes) {
        Some(decimal_value(bytes))
    } else {
        None
    }
}

/// The pool or the domain that the word names, by its name or its number.
pub(crate) fn read_which(word: &[u8]) -> Option<Which>
    ensures value { result ≡ which_of word.now }
    ensures checked { IfSome result IsCheckedWhich }
{
    match Name::read(word) {
        Some(name) => Some(Which::Name(name)),
        None => read_number(word).map(Which::Number),
    }
}

/// The index of a vCPU, or `None` inside for all of them.
pub(crate) fn read_vcpu(word: &[u8]) -> Option<Option<u64>>
    ensures value { result ≡ vcpu_of word.now }
    ensures checked { IfSome result IsGivenNumber }
{
    if word == b"all".as_slice() {
        Some(None)
    } else {
        read_number(word).map(Some)
    }
}

/// A switch: `0` is off and `1` is on.
pub(crate) fn read_switch(word: &[u8]) -> Option<bool>
    ensures { result ≡ switch_of word.now }
{
    if word == b"0".as_slice() {
        Some(false)
    } else if word == b"1".as_slice() {
        Some(true)
    } else {
        None
    }
}

/// The scheduler of this name.
pub(crate) fn read_kind(word: &[u8]) -> Option<SchedKind>
    ensures { result ≡ kind_of word.now }
{
    if word == b"credit2".as_slice() {
        Some(SchedKind::Credit2)
    } else if word == b"rtds".as_slice() {
        Some(SchedKind::Rtds)
    } else if word == b"arinc653".as_slice() {
        Some(SchedKind::Arinc653)
    } else if word == b"null".as_slice() {
        Some(SchedKind::Null)
    } else {
        None
    }
}
