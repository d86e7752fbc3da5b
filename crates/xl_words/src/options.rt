//! The commands' options, which stand in any order, each once.

ghost use Rattle.std.specs.Prelude.{◌≡◌, ◌+◌, ◌*◌, ◌<◌, ◌≤◌, IfOk};
ghost use Rattle.xl_words.specs.Parts.{words};
ghost use Rattle.xl_words.specs.Options.{options, new_pool_rules, new_pool_open, IsCheckedNewPool};
ghost use Rattle.xl_words.specs.Options.{credit2_domain_rules, credit2_domain_open, IsCheckedCredit2OfDomain};
ghost use Rattle.xl_words.specs.Options.{credit2_pool_rules, credit2_pool_open, IsCheckedCredit2OfPool};
ghost use Rattle.xl_words.specs.Options.{rtds_rules, rtds_open, IsCheckedRtds};

use crate::parts::next_word;
use crate::values::{read_kind, read_number, read_switch, read_vcpu, read_which};
use sched_base::Name;
use sched_model::command::{Syntax, Which};
use sched_model::config::SchedKind;

/// The options of a command that are given so far.
pub(crate) trait Options: Drop {
    ghost use Rattle.std.specs.Prelude.{◌≡◌, ◌+◌, ℕ, true, false};
    ghost use Rattle.std.specs.Bool.{then_some};
    ghost use Rattle.xl_words.specs.Options.{Rules};

    /// Which options the command has.
    ghost rules: { Rules Self };

    /// How many of them are not given yet.
    ghost left: { Self → ℕ };

    /// The values that are given are in their ranges.
    ghost IsChecked: { Self → Type 0 };

    /// Takes an option of one word, and says whether the word is one that may still be given.
    fn take_word(&mut self, word: &[u8]) -> bool
        requires { IsChecked self.old }
        ensures value { then_some result self.new ≡ rules.alone self.old word.now }
        ensures fewer { result ≡ true → left self.new + 1 ≡ left self.old }
        ensures checked { IsChecked self.new }
        ensures none { result ≡ false → self.new ≡ self.old };

    /// Whether the word is an option with a value that may still be given.
    fn allows(&self, word: &[u8]) -> bool
        ensures { result ≡ rules.takes self.now word.now };

    /// Takes an option with its value, and says whether the value has a reading. Where the option may still be given, one fewer is
    /// left then.
    fn take_value(&mut self, word: &[u8], value: &[u8]) -> bool
        requires checked { IsChecked self.old }
        ensures value { then_some result self.new ≡ rules.value self.old word.now value.now }
        ensures fewer { rules.takes self.old word.now ≡ true → result ≡ true →
            left self.new + 1 ≡ left self.old }
        ensures checked { IsChecked self.new };
}

/// The options in the words, beside those that are given, and the count of all words.
pub(crate) fn read_options<G: Options>(
    mut given: G,
    place: u32,
    rest: &[u8],
) -> Result<(G, u32), Syntax>
    requires room { place + 2 * G.left given ≤ 12 }
    requires checked { G.IsChecked given }
    ensures value { result ≡ options G.rules place given (words rest.now) }
    ensures checked { IfOk result (λ found. G.IsChecked found.0) }
{
    let Some((word, rest)) = next_word(rest) else {
        return Ok((given, place));
    };
    if given.take_word(word) {
        return read_options(given, place + 1, rest);
    }
    if !given.allows(word) {
        return Err(Syntax { place });
    }
    let Some((value, rest)) = next_word(rest) else {
        return Err(Syntax { place: place + 1 });
    };
    if !given.take_value(word, value) {
        return Err(Syntax { place: place + 1 });
    }
    read_options(given, place + 2, rest)
}

/// The options of `cpupool-create`.
#[derive(Drop)]
pub(crate) struct NewPool {
    pub name: Option<Name>,
    pub sched: Option<SchedKind>,
}

impl Options for NewPool {
    ghost rules = { new_pool_rules };

    ghost left = { new_pool_open };

    ghost IsChecked = { IsCheckedNewPool };

    fn take_word(&mut self, word: &[u8]) -> bool {
        if let Some(spelled) = word.strip_prefix(b"name=".as_slice()) {
            if self.name.is_some() {
                return false;
            }
            self.name = Name::read(spelled);
            return self.name.is_some();
        }
        let Some(spelled) = word.strip_prefix(b"sched=".as_slice()) else {
            return false;
        };
        if self.sched.is_some() {
            return false;
        }
        self.sched = read_kind(spelled);
        self.sched.is_some()
    }

    fn allows(&self, _word: &[u8]) -> bool {
        false
    }

    fn take_value(&mut self, _word: &[u8], _value: &[u8]) -> bool {
        false
    }
}

/// The options of `sched-credit2` of a domain.
#[derive(Drop)]
pub(crate) struct Credit2OfDomain {
    pub dom: Option<Which>,
    pub weight: Option<u64>,
    pub cap: Option<u64>,
}

impl Options for Credit2OfDomain {
    ghost rules = { credit2_domain_rules };

    ghost left = { credit2_domain_open };

    ghost IsChecked = { IsCheckedCredit2OfDomain };

    fn take_word(&mut self, _word: &[u8]) -> bool {
        false
    }

    fn allows(&self, word: &[u8]) -> bool {
        if word == b"-d".as_slice() {
            self.dom.is_none()
        } else if word == b"-w".as_slice() {
            self.weight.is_none()
        } else if word == b"-c".as_slice() {
            self.cap.is_none()
        } else {
            false
        }
    }

    fn take_value(&mut self, word: &[u8], value: &[u8]) -> bool {
        if word == b"-d".as_slice() {
            self.dom = read_which(value);
            self.dom.is_some()
        } else if word == b"-w".as_slice() {
            self.weight = read_number(value);
            self.weight.is_some()
        } else {
            self.cap = read_number(value);
            self.cap.is_some()
        }
    }
}

/// The options of `sched-credit2` of a pool.
#[derive(Drop)]
pub(crate) struct Credit2OfPool {
    pub of_pool: Option<()>,
    pub pool: Option<Which>,
    pub limit: Option<u64>,
}

impl Options for Credit2OfPool {
    ghost rules = { credit2_pool_rules };

    ghost left = { credit2_pool_open };

    ghost IsChecked = { IsCheckedCredit2OfPool };

    fn take_word(&mut self, word: &[u8]) -> bool {
        if word == b"-s".as_slice() && self.of_pool.is_none() {
            self.of_pool = Some(());
            true
        } else {
            false
        }
    }

    fn allows(&self, word: &[u8]) -> bool {
        if word == b"-p".as_slice() {
            self.pool.is_none()
        } else if word == b"-r".as_slice() {
            self.limit.is_none()
        } else {
            false
        }
    }

    fn take_value(&mut self, word: &[u8], value: &[u8]) -> bool {
        if word == b"-p".as_slice() {
            self.pool = read_which(value);
            self.pool.is_some()
        } else {
            self.limit = read_number(value);
            self.limit.is_some()
        }
    }
}

/// The options of `sched-rtds`.
#[derive(Drop)]
pub(crate) struct RtdsOfDomain {
    pub dom: Option<Which>,
    pub vcpu: Option<Option<u64>>,
    pub period: Option<u64>,
    pub budget: Option<u64>,
    pub extra: Option<bool>,
}

impl Options for RtdsOfDomain {
    ghost rules = { rtds_rules };

    ghost left = { rtds_open };

    ghost IsChecked = { IsCheckedRtds };

    fn take_word(&mut self, _word: &[u8]) -> bool {
        false
    }

    fn allows(&self, word: &[u8]) -> bool {
        if word == b"-d".as_slice() {
            self.dom.is_none()
        } else if word == b"-v".as_slice() {
            self.vcpu.is_none()
        } else if word == b"-p".as_slice() {
            self.period.is_none()
        } else if word == b"-b".as_slice() {
            self.budget.is_none()
        } else if word == b"-e".as_slice() {
            self.extra.is_none()
        } else {
            false
        }
    }

    fn take_value(&mut self, word: &[u8], value: &[u8]) -> bool {
        if word == b"-d".as_slice() {
            self.dom = read_which(value);
            self.dom.is_some()
        } else if word == b"-v".as_slice() {
            self.vcpu = read_vcpu(value);
            self.vcpu.is_some()
        } else if word == b"-p".as_slice() {
            self.period = read_number(value);
            self.period.is_some()
        } else if word == b"-b".as_slice() {
            self.budget = read_number(value);
            self.budget.is_some()
        } else {
            self.extra = read_switch(value);
            self.extra.is_some()
        }
    }
}
