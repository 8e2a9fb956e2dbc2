//! What the words of the command line ask for.
ghost use Rattle.std.specs.Prelude.{◌≡◌, ◌≤◌, ◌∷◌, ◌++◌, [], length, map, string_bytes, codes, Some, None, IfSome, IfNone, IsTrue, take, unwrap_or, nat_le, false};
ghost use Rattle.std.specs.List.{position_or_len};
ghost use Rattle.pmem_base.specs.Shape.{is_loss};
ghost use Rattle.pmem_base.specs.Geo.{shape_of};
ghost use Rattle.suite.specs.Suites.{aes_counts, aes_keys, weak_counts, weak_keys};
ghost use Rattle.suite.specs.Weak.{blur_flag};
ghost use Rattle.pmem_cli.specs.Keys.{chosen_key, chosen_tag_key, shape_chosen, every_chosen};
ghost use Rattle.pmem_cli.specs.Words.{suite_named, switch_named, longest_path, number_where, value_of, is_up_to, choose_log, is_flag, choose_suite, choose_tree, choose_policy, choose_run, choose_wear, choose_queues, choose, no_choices, is_equals, option_parts, next_value, take_options, options_of, seed_and_count, run_asked, session_asked, task_of, AreTaken, AreChosen, HasChosen, map_some};

use collision_witness::{read_number, read_number_up_to, read_tag};
use pmem_base::{Geo, Line};
use suite::{AesSuite, WeakSuite};
use trace_text::read_part;

/// The default key: the bytes 00 to 0f.
const DEFAULT_KEY: [u8; 16] = [0, 1, 2, 3, 4, 5, 6, 7, 8, 9, 10, 11, 12, 13, 14, 15];

/// The default tag key: the 32 bytes 10 to 2f, at the beginning of a line of zeros.
const DEFAULT_TAG_KEY: [u8; 64] = [
    16, 17, 18, 19, 20, 21, 22, 23, 24, 25, 26, 27, 28, 29, 30, 31, 32, 33, 34, 35, 36, 37, 38, 39,
    40, 41, 42, 43, 44, 45, 46, 47, 0, 0, 0, 0, 0, 0, 0, 0, 0, 0, 0, 0, 0, 0, 0, 0, 0, 0, 0, 0, 0,
    0, 0, 0, 0, 0, 0, 0, 0, 0, 0, 0,
];

/// The lines of the longest path: a counter block, and a node on each of six levels.
const LONGEST_PATH: u8 = 7;

/// Which suite is used.
#[derive(Clone, Copy)]
pub enum SuiteName {
    Aes,
    Weak,
    Blur,
}

/// What was chosen by options. A tag key is its number of bytes, and a line that begins with them.
#[derive(Clone, Copy)]
pub struct Choices {
    pub levels: Option<u8>,
    pub sets: Option<u8>,
    pub ways: Option<u8>,
    pub loss: Option<u8>,
    pub major: Option<u64>,
    pub suite: Option<SuiteName>,
    pub key: Option<[u8; 16]>,
    pub tag_key: Option<(u8, Line)>,
    pub every: Option<u32>,
    pub durable: Option<bool>,
    pub combines: Option<bool>,
    pub log: bool,
    pub persist: Option<u8>,
    pub shadow: Option<bool>,
}

/// Which options a task takes: each kind but the last takes those of the kinds before it, and more.
#[derive(Clone, Copy)]
pub(crate) enum Allowed {
    /// The options of the suite.
    Suite,
    /// The options of a counter tree.
    Tree,
    /// The options of a run's memory.
    Run,
    /// The options of a levelled memory.
    Wear,
    /// The options of a run: of its memory, and of its write queues.
    Queues,
}

/// What the program is to do.
#[derive(Clone, Copy)]
pub enum Task {
    /// Run a trace.
    Run(Choices),
    /// Run a trace, and tell its log.
    Log(Choices),
    /// Print a sample trace of `count` commands.
    Make { seed: u64, count: u32 },
    /// Run that trace, and print its last line.
    Sample { seed: u64, count: u32 },
    /// Try an exhibit.
    Check(Choices),
    /// Answer a trace by a levelled memory.
    Wear(Choices),
    /// Answer a trace by a memory over a counter tree.
    Tree(Choices),
    /// Answer a trace by a memory that is written by transactions.
    Txn(Choices),
}

/// The suite of a name.
fn read_suite(word: &[u8]) -> Option<SuiteName>
    ensures { result ≡ suite_named word.now }
{
    if word == b"aes".as_slice() {
        Some(SuiteName::Aes)
    } else if word == b"weak".as_slice() {
        Some(SuiteName::Weak)
    } else if word == b"blur".as_slice() {
        Some(SuiteName::Blur)
    } else {
        None
    }
}

/// A switch, by the names of its two states.
fn read_switch(off: &[u8], on: &[u8], word: &[u8]) -> Option<bool>
    ensures { result ≡ switch_named off.now on.now word.now }
{
    if word == off {
        Some(false)
    } else if word == on {
        Some(true)
    } else {
        None
    }
}

/// A number from 1 up to a greatest one.
fn read_up_to(most: u32, word: &[u8]) -> Option<u32>
    ensures number { result ≡ number_where (is_up_to most) word.now }
    ensures range { IfSome result (λ n. (1 ≤ n) × (n ≤ most)) }
{
    match read_number(word) {
        Ok(number) if 1 <= number && number <= u64::from(most) => Some(number as u32),
        _ => None,
    }
}

/// A stop-loss number.
fn read_loss(word: &[u8]) -> Option<u8>
    ensures number { result ≡ number_where is_loss word.now }
    ensures range { IfSome result (λ n. IsTrue (is_loss n)) }
{
    match read_number(word) {
        Ok(number) => {
            if number == 1 || number == 2 || number == 4 || number == 8 || number == 16 {
                Some(number as u8)
            } else {
                None
            }
        }
        Err(_) => None,
    }
}

/// How many lines of a path stand in each group: at most those of the longest path.
fn read_persist(word: &[u8]) -> Option<u8>
    ensures number { result ≡ number_where (λ n. nat_le n longest_path) word.now }
    ensures range { IfSome result (λ n. n ≤ longest_path) }
{
    match read_number(word) {
        Ok(number) if number <= u64::from(LONGEST_PATH) => Some(number as u8),
        _ => None,
    }
}

impl Choices {
    /// Nothing is chosen.
    #[tactic(auto, unfolding(crate::specs::Words::no_choices))]
    pub fn none() -> Choices
        ensures choices { result ≡ no_choices }
        ensures chosen { AreChosen result }
    {
        Choices {
            levels: None,
            sets: None,
            ways: None,
            loss: None,
            major: None,
            suite: None,
            key: None,
            tag_key: None,
            every: None,
            durable: None,
            combines: None,
            log: false,
            persist: None,
            shadow: None,
        }
    }

    /// The suite: aes by default.
    pub fn suite_name(&self) -> SuiteName
        ensures { result ≡ unwrap_or self.now.suite SuiteName.Aes }
    {
        self.suite.unwrap_or(SuiteName::Aes)
    }

    /// The key: the bytes 00 to 0f by default.
    pub fn suite_key(&self) -> [u8; 16]
        ensures { result ≡ chosen_key self.now }
    {
        match self.key {
            Some(key) => key,
            None => DEFAULT_KEY,
        }
    }

    /// The tag key, padded: its length in bytes, and a line that begins with them. The default are the bytes 10 to 2f.
    pub fn suite_tag_key(&self) -> (u8, Line)
        requires { AreChosen self.now }
        ensures bytes { take result.0 result.1.0 ≡ chosen_tag_key self.now }
        ensures some { 1 ≤ result.0 }
        ensures most { result.0 ≤ 64 }
    {
        match self.tag_key {
            Some(key) => key,
            None => (32, Line(DEFAULT_TAG_KEY)),
        }
    }

    /// The aes suite under the chosen keys.
    pub fn aes_suite(&self) -> AesSuite
        requires { AreChosen self.now }
        ensures keys { aes_keys result ≡ chosen_key self.now ++ chosen_tag_key self.now }
        ensures unused { aes_counts result ≡ (0, 0, 0) }
    {
        let key = self.suite_key();
        let (count, line) = self.suite_tag_key();
        AesSuite::new(&key, line.0.as_slice().split_at(usize::from(count)).0)
    }

    /// The weak suite under the chosen keys, in its blur form or not.
    pub fn weak_suite(&self, blur: bool) -> WeakSuite
        requires { AreChosen self.now }
        ensures keys { weak_keys result ≡ (chosen_key self.now ++ chosen_tag_key self.now) ++ blur_flag blur ∷ [] }
        ensures unused { weak_counts result ≡ (0, 0, 0) }
    {
        let key = self.suite_key();
        let (count, line) = self.suite_tag_key();
        WeakSuite::new(&key, line.0.as_slice().split_at(usize::from(count)).0, blur)
    }

    /// The geometry. By default: two levels, four sets of two ways, windows of four minors, the first major 0, no line
    /// of a path in each group, shadow tables, and volatile queues that combine nothing.
    #[tactic(auto, unfolding(crate::specs::Keys::shape_chosen))]
    pub fn geometry(&self) -> Geo
        requires { AreChosen self.now }
        ensures { shape_of result ≡ shape_chosen self.now }
    {
        let levels = self.levels.unwrap_or(2);
        let sets = self.sets.unwrap_or(4);
        let ways = self.ways.unwrap_or(2);
        let loss = self.loss.unwrap_or(4);
        let Ok(geo) = Geo::new(levels, sets, ways, loss, self.major.unwrap_or(0)) else {
            unreachable!()
        };
        let persist = self.persist.unwrap_or(0);
        let Ok(geo) = geo.with_policy(persist, self.shadow.unwrap_or(true)) else {
            unreachable!()
        };
        geo.with_queues(
            self.durable.unwrap_or(false),
            self.combines.unwrap_or(false),
        )
    }

    /// After how many writes the gap of a levelled memory moves: 100 by default.
    pub fn every(&self) -> u32
        requires { AreChosen self.now }
        ensures every { result ≡ every_chosen self.now }
        ensures some { 1 ≤ result }
    {
        self.every.unwrap_or(100)
    }

    /// These choices, and an option of the suite that wasn't chosen yet.
    fn with_suite(self, name: &[u8], value: &[u8]) -> Option<Choices>
        requires { AreTaken self }
        ensures choices { result ≡ choose_suite self name.now value.now }
        ensures taken { IfSome result AreTaken }
    {
        let mut more = self;
        if name == b"suite".as_slice() && self.suite.is_none() {
            more.suite = Some(read_suite(value)?);
        } else if name == b"key".as_slice() && self.key.is_none() {
            more.key = Some(read_tag(value).ok()?);
        } else if name == b"tag-key".as_slice() && self.tag_key.is_none() {
            more.tag_key = Some(read_part(value).ok()?);
        } else {
            return None;
        }
        Some(more)
    }

    /// These choices, and an option of a counter tree that wasn't chosen yet.
    fn with_tree(self, name: &[u8], value: &[u8]) -> Option<Choices>
        requires { AreTaken self }
        ensures choices { result ≡ choose_tree self name.now value.now }
        ensures taken { IfSome result AreTaken }
    {
        let mut more = self;
        if name == b"levels".as_slice() {
            if self.levels.is_some() {
                return None;
            }
            more.levels = Some(read_up_to(6, value)? as u8);
        } else if name == b"sets".as_slice() {
            if self.sets.is_some() {
                return None;
            }
            more.sets = Some(read_up_to(64, value)? as u8);
        } else {
            return self.with_suite(name, value);
        }
        Some(more)
    }

    /// These choices, and an option of a run's memory that wasn't chosen yet.
    fn with_run(self, name: &[u8], value: &[u8]) -> Option<Choices>
        requires { AreTaken self }
        ensures choices { result ≡ choose_run self name.now value.now }
        ensures taken { IfSome result AreTaken }
    {
        let mut more = self;
        if name == b"ways".as_slice() {
            if self.ways.is_some() {
                return None;
            }
            more.ways = Some(read_up_to(8, value)? as u8);
        } else if name == b"loss".as_slice() {
            if self.loss.is_some() {
                return None;
            }
            more.loss = Some(read_loss(value)?);
        } else if name == b"major".as_slice() {
            if self.major.is_some() {
                return None;
            }
            more.major = Some(read_number(value).ok()?);
        } else {
            return self.with_policy(name, value);
        }
        Some(more)
    }

    /// These choices, and an option of the persistence policy that wasn't chosen yet.
    fn with_policy(self, name: &[u8], value: &[u8]) -> Option<Choices>
        requires { AreTaken self }
        ensures choices { result ≡ choose_policy self name.now value.now }
        ensures taken { IfSome result AreTaken }
    {
        let mut more = self;
        if name == b"persist".as_slice() {
            if self.persist.is_some() {
                return None;
            }
            more.persist = Some(read_persist(value)?);
        } else if name == b"shadow".as_slice() {
            if self.shadow.is_some() {
                return None;
            }
            more.shadow = Some(read_switch(b"off".as_slice(), b"on".as_slice(), value)?);
        } else {
            return self.with_tree(name, value);
        }
        Some(more)
    }

    /// These choices, and an option of a levelled memory that wasn't chosen yet.
    fn with_wear(self, name: &[u8], value: &[u8]) -> Option<Choices>
        requires { AreTaken self }
        ensures choices { result ≡ choose_wear self name.now value.now }
        ensures taken { IfSome result AreTaken }
    {
        if name != b"every".as_slice() {
            return self.with_run(name, value);
        }
        if self.every.is_some() {
            return None;
        }
        let mut more = self;
        more.every = Some(read_up_to(1_000_000, value)?);
        Some(more)
    }

    /// These choices, and an option of a run that wasn't chosen yet.
    fn with_queues(self, name: &[u8], value: &[u8]) -> Option<Choices>
        requires { AreTaken self }
        ensures choices { result ≡ choose_queues self name.now value.now }
        ensures taken { IfSome result AreTaken }
    {
        let mut more = self;
        if name == b"queue".as_slice() {
            if self.durable.is_some() {
                return None;
            }
            more.durable = Some(read_switch(b"volatile".as_slice(), b"durable".as_slice(), value)?);
        } else if name == b"combine".as_slice() {
            if self.combines.is_some() {
                return None;
            }
            more.combines = Some(read_switch(b"off".as_slice(), b"on".as_slice(), value)?);
        } else {
            return self.with_run(name, value);
        }
        Some(more)
    }

    /// These choices, and one more that a task takes.
    fn with(self, allowed: Allowed, name: &[u8], value: &[u8]) -> Option<Choices>
        requires { AreTaken self }
        ensures choices { result ≡ choose allowed self name.now value.now }
        ensures taken { IfSome result AreTaken }
    {
        match allowed {
            Allowed::Suite => self.with_suite(name, value),
            Allowed::Tree => self.with_tree(name, value),
            Allowed::Run => self.with_run(name, value),
            Allowed::Wear => self.with_wear(name, value),
            Allowed::Queues => self.with_queues(name, value),
        }
    }
}

/// These choices, with the log chosen if a word asks for it.
fn with_log(choices: Choices) -> Option<Choices>
    requires { AreTaken choices }
    ensures choices { result ≡ choose_log choices }
    ensures taken { IfSome result AreTaken }
{
    if choices.log {
        return None;
    }
    let mut more = choices;
    more.log = true;
    Some(more)
}

/// Whether a word is the flag of a log, which has no value.
fn is_log_flag(allowed: Allowed, word: &str) -> bool
    ensures { result ≡ is_flag allowed word.now }
{
    match allowed {
        Allowed::Suite => false,
        _ => word == "--log",
    }
}

/// The number of bytes before the first `=`.
fn equals_index(text: &[u8]) -> usize
    ensures count { result ≡ position_or_len is_equals text.now }
    ensures within { result ≤ length text.now }
{
    for (i, byte) in text.iter().enumerate() {
        if *byte == b'=' {
            return i;
        }
    }
    text.len()
}

/// The name of an option, and its value if the word has one.
fn split_option(word: &[u8]) -> Option<(&[u8], Option<&[u8]>)>
    ensures { map_some (λ found. (found.0.now, map_some (λ value. value.now) found.1)) result ≡ option_parts word.now }
{
    let text = word.strip_prefix(b"--".as_slice())?;
    let at = equals_index(text);
    if at == text.len() {
        return Some((text, None));
    }
    let (name, rest) = text.split_at(at);
    Some((name, Some(rest.split_at(1).1)))
}

/// The value of an option whose word is read, and the words behind it: its own, or the next word.
fn take_value<'a>(own: Option<&'a [u8]>, words: &'a [String]) -> Option<(&'a [u8], &'a [String])>
    ensures value { map_some (λ found. (found.0.now, map string_bytes found.1.now)) result
        ≡ next_value (map_some (λ value. value.now) own.entry) (map string_bytes words.now) }
    ensures fewer { IfSome result (λ found. length found.1.now ≤ length words.now) }
{
    if let Some(value) = own {
        return Some((value, words));
    }
    match words {
        [] => None,
        [next, rest @ ..] => Some((next.as_bytes(), rest)),
    }
}

/// Takes an option after earlier choices: its word, and the value that may stand behind it. Gives
/// the words behind them.
fn take_option<'a>(
    allowed: Allowed,
    choices: Choices,
    word: &'a str,
    words: &'a [String],
) -> Option<(Choices, &'a [String])>
    requires taken { AreTaken choices }
    requires valued { is_flag allowed word.now ≡ false }
    ensures none { IfNone result (take_options allowed choices (word.now ∷ map string_bytes words.now) ≡ None) }
    ensures more { IfSome result (λ found. take_options allowed choices (word.now ∷ map string_bytes words.now)
        ≡ take_options allowed found.0 (map string_bytes found.1.now)) }
    ensures fewer { IfSome result (λ found. length found.1.now ≤ length words.now) }
    ensures taken { IfSome result (λ found. AreTaken found.0) }
{
    let (name, own) = split_option(word.as_bytes())?;
    let (value, rest) = take_value(own, words)?;
    let more = choices.with(allowed, name, value)?;
    Some((more, rest))
}

/// Takes an option after earlier choices: a flag alone, or a word with its value.
fn take_choice<'a>(
    allowed: Allowed,
    choices: Choices,
    word: &'a str,
    words: &'a [String],
) -> Option<(Choices, &'a [String])>
    requires taken { AreTaken choices }
    ensures none { IfNone result (take_options allowed choices (word.now ∷ map string_bytes words.now) ≡ None) }
    ensures more { IfSome result (λ found. take_options allowed choices (word.now ∷ map string_bytes words.now)
        ≡ take_options allowed found.0 (map string_bytes found.1.now)) }
    ensures fewer { IfSome result (λ found. length found.1.now ≤ length words.now) }
    ensures taken { IfSome result (λ found. AreTaken found.0) }
{
    if !is_log_flag(allowed, word) {
        return take_option(allowed, choices, word, words);
    }
    let more = with_log(choices)?;
    Some((more, words))
}

/// What is chosen by words.
#[tactic(auto, unfolding(crate::specs::Words::options_of))]
fn read_options(allowed: Allowed, words: &[String]) -> Option<Choices>
    ensures choices { result ≡ options_of allowed (map string_bytes words.now) }
    ensures chosen { IfSome result AreChosen }
{
    let choices = take_choices(allowed, words)?;
    if choices.persist.unwrap_or(0) > choices.levels.unwrap_or(2) + 1 {
        return None;
    }
    Some(choices)
}

/// What is taken of words.
#[tactic(auto, unfolding(crate::specs::Words::take_options))]
fn take_choices(allowed: Allowed, words: &[String]) -> Option<Choices>
    ensures choices { result ≡ take_options allowed no_choices (map string_bytes words.now) }
    ensures taken { IfSome result AreTaken }
{
    let mut choices = Choices::none();
    let mut rest = words;
    'options: while let [word, words @ ..] = rest {
        match take_choice(allowed, choices, word.as_str(), words) {
            None => return None,
            Some((more, behind)) => {
                choices = more;
                rest = behind;
            }
        }
    }
    Some(choices)
}

/// A seed and a count up to 999,999.
fn read_seed_and_count(words: &[String]) -> Option<(u64, u32)>
    ensures { result ≡ seed_and_count (map string_bytes words.now) }
{
    let [seed, count] = words else {
        return None;
    };
    let seed = read_number(seed.as_bytes()).ok()?;
    let count = read_number_up_to(999_999, count.as_bytes()).ok()?;
    Some((seed, count as u32))
}

/// A run with these options, and whether it prints its log.
fn read_run(words: &[String]) -> Option<Task>
    ensures task { result ≡ run_asked (map string_bytes words.now) }
    ensures chosen { IfSome result HasChosen }
{
    let choices = read_options(Allowed::Queues, words)?;
    if choices.log {
        Some(Task::Log(choices))
    } else {
        Some(Task::Run(choices))
    }
}

/// A session of the memory of this name, with these options.
fn read_session(name: &str, words: &[String]) -> Option<Task>
    ensures task { result ≡ session_asked name.now (map string_bytes words.now) }
    ensures chosen { IfSome result HasChosen }
{
    match name {
        "wear" => Some(Task::Wear(read_options(Allowed::Wear, words)?)),
        "tree" => Some(Task::Tree(read_options(Allowed::Tree, words)?)),
        "txn" => Some(Task::Txn(read_options(Allowed::Run, words)?)),
        _ => None,
    }
}

/// What the arguments ask for, or nothing if they are invalid.
#[tactic(auto, unfolding(crate::specs::Words::task_of))]
pub fn read_task(words: &[String]) -> Option<Task>
    ensures task { result ≡ task_of (map string_bytes words.now) }
    ensures chosen { IfSome result HasChosen }
{
    let [name, words @ ..] = words else {
        return None;
    };
    match name.as_str() {
        "run" => read_run(words),
        "check" => Some(Task::Check(read_options(Allowed::Suite, words)?)),
        "make" => {
            let (seed, count) = read_seed_and_count(words)?;
            Some(Task::Make { seed, count })
        }
        "sample" => {
            let (seed, count) = read_seed_and_count(words)?;
            Some(Task::Sample { seed, count })
        }
        _ => read_session(name.as_str(), words),
    }
}
