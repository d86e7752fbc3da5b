//! The words of a command at their places.

ghost use Rattle.std.specs.Prelude.{◌≡◌, true, Ok, Err, MatchResult, IfOk};
ghost use Rattle.std.specs.List.{All};
ghost use Rattle.sched_base.specs.Names.{is_valid_name};
ghost use Rattle.sched_model.specs.CheckedMachine.{IsCheckedWhich, IsNumber, IsGivenNumber};
ghost use Rattle.xl_words.specs.Parts.{words};
ghost use Rattle.xl_words.specs.Values.{which_of, number_of, name_of};
ghost use Rattle.xl_words.specs.Grammar.{field, nothing_more};

use crate::parts::next_word;
use crate::values::{read_number, read_which};
use sched_base::Name;
use sched_model::command::{Syntax, Which};

/// A pool or a domain at this place, and what follows it.
pub(crate) fn which_at(place: u32, rest: &[u8]) -> Result<(Which, &[u8]), Syntax>
    ensures value { MatchResult result (λ found. field which_of place (words rest.now)
        ≡ Ok (found.0, words found.1.now)) (λ fault. field which_of place (words rest.now)
        ≡ Err fault) }
    ensures checked { IfOk result (λ found. IsCheckedWhich found.0) }
{
    let Some((word, rest)) = next_word(rest) else {
        return Err(Syntax { place });
    };
    match read_which(word) {
        Some(which) => Ok((which, rest)),
        None => Err(Syntax { place }),
    }
}

/// A number at this place, and what follows it.
pub(crate) fn number_at(place: u32, rest: &[u8]) -> Result<(u64, &[u8]), Syntax>
    ensures value { MatchResult result (λ found. field number_of place (words rest.now)
        ≡ Ok (found.0, words found.1.now)) (λ fault. field number_of place (words rest.now)
        ≡ Err fault) }
    ensures checked { IfOk result (λ found. IsNumber found.0) }
{
    let Some((word, rest)) = next_word(rest) else {
        return Err(Syntax { place });
    };
    match read_number(word) {
        Some(n) => Ok((n, rest)),
        None => Err(Syntax { place }),
    }
}

/// A name at this place, and what follows it.
pub(crate) fn name_at(place: u32, rest: &[u8]) -> Result<(Name, &[u8]), Syntax>
    ensures value { MatchResult result (λ found. field name_of place (words rest.now)
        ≡ Ok (found.0, words found.1.now)) (λ fault. field name_of place (words rest.now)
        ≡ Err fault) }
    ensures checked { IfOk result (λ found. is_valid_name found.0 ≡ true) }
{
    let Some((word, rest)) = next_word(rest) else {
        return Err(Syntax { place });
    };
    match Name::read(word) {
        Some(name) => Ok((name, rest)),
        None => Err(Syntax { place }),
    }
}

/// No word at this place.
pub(crate) fn end_at(place: u32, rest: &[u8]) -> Result<(), Syntax>
    ensures { result ≡ nothing_more place (words rest.now) }
{
    match next_word(rest) {
        None => Ok(()),
        Some(_) => Err(Syntax { place }),
    }
}
