ghost use Rattle.std.specs.Prelude.{◌≡◌, ◌≤◌, ◌↔◌, IfOk, IfSome, MatchOption, Some, None, codes, drop, length, take};
ghost use Rattle.std.specs.IoError.{error_kind};
ghost use Rattle.std.specs.Option.{option_copied};
ghost use Rattle.cli_words.specs.Commands.{AreLimits, IsInRange, command_seen};
ghost use Rattle.cli_words.specs.Serving.{serve_seen};
ghost use Rattle.spec_program.specs.Words as definition;
ghost use Rattle.spec_program.specs.Words.{are_options, as_count, check_of, command_of, before_main, dead_of, exclusive_of, expect_of, from_main, ground_of, ground_plan_of, in_range, is_option, is_unset, limited_words, live_of, load_of, main_in, mock_of, mock_print_of, mock_run_of, number_or, plan_of, rounds_in, serve_of, tick_of, value_of, without_strict};
ghost use Rattle.spec_tree.specs.Limits.{most_leaves, most_rounds};
ghost use Rattle.spec_tree.specs.Numbers.{int_in};

use base_tables::{MOST_LEAVES, MOST_ROUNDS, int};
use base_texts::{Name, NoMemory};
use spec_program::Options;
use std::alloc::{AllocFailed, Global};
use std::env::Env;
use std::io::ErrorKind;
use std::{env, io};

/// A command: the files that it names, how many rounds, and the ID of the main tree where it names
/// one; the IDs of leaves; how many leaves a load has; or the limits of a plan.
#[derive(Clone, Copy)]
pub enum Command<'a> {
    /// `tick TREE WORLD [--main ID]`
    Tick {
        tree: &'a Name,
        world: &'a Name,
        main: Option<&'a Name>,
    },
    /// `live TREE WORLD --ticks N [--main ID]`
    Live {
        tree: &'a Name,
        world: &'a Name,
        /// From 1 to `MOST_ROUNDS`.
        rounds: u32,
        main: Option<&'a Name>,
    },
    /// `load N`
    Load {
        /// From 1 to `MOST_LEAVES`.
        leaves: u32,
    },
    /// `check TREE [--main ID] [--strict]`, of which `--strict` changes nothing.
    Check {
        tree: &'a Name,
        main: Option<&'a Name>,
    },
    /// `dead TREE [--main ID]`
    Dead {
        tree: &'a Name,
        main: Option<&'a Name>,
    },
    /// `exclusive TREE ID ID.. [--main ID]`
    Exclusive {
        tree: &'a Name,
        /// One or more.
        ids: &'a [Name],
        main: Option<&'a Name>,
    },
    /// `plan WORLD [--expand N] [--ticks N] [--period MS]`
    Plan {
        world: &'a Name,
        /// The most sequences that are added.
        expand: u32,
        /// The most ticks of one modelled run.
        ticks: u32,
        /// The time from one tick to the next, in milliseconds.
        period: u32,
    },
    /// `mock TREE WORLD RULES [--main ID]`
    Mock {
        tree: &'a Name,
        world: &'a Name,
        rules: &'a Name,
        main: Option<&'a Name>,
    },
    /// `mock --print TREE RULES [--main ID]`
    MockPrint {
        tree: &'a Name,
        rules: &'a Name,
        main: Option<&'a Name>,
    },
    /// `expect TREE WORLD EXPECT [--main ID]`
    Expect {
        tree: &'a Name,
        world: &'a Name,
        expect: &'a Name,
        main: Option<&'a Name>,
    },
    /// `ground WORLD`
    Ground {
        world: &'a Name,
    },
    /// `gplan WORLD [--expand N] [--ticks N] [--period MS]`
    GroundPlan {
        world: &'a Name,
        /// As those of a plan.
        expand: u32,
        ticks: u32,
        period: u32,
    },
}

/// The value that options, each a name and a value after it, give to this name.
fn value_of<'a>(options: &'a [Name], name: &[u8]) -> Option<&'a Name>
    ensures { option_copied result ≡ value_of name.now options.now }
{
    let mut rest = options;
    while let [other, value, more @ ..] = rest {
        if other.list() == name {
            return Some(value);
        }
        rest = more;
    }
    None
}

/// Whether no option has this name.
#[tactic(auto, unfolding(spec_program::specs::Words::is_unset))]
fn is_unset(options: &[Name], name: &Name) -> bool
    ensures { result ≡ is_unset name.now options.now }
{
    value_of(options, name.list()).is_none()
}

/// Whether this is the name of one of the options.
#[tactic(auto, unfolding(spec_program::specs::Words::is_option))]
fn is_option(options: Options, name: &Name) -> bool
    ensures { result ≡ is_option options name.now }
{
    let name = name.list();
    match options {
        Options::Main => name == b"--main".as_slice(),
        Options::Rounds => name == b"--main".as_slice() || name == b"--ticks".as_slice(),
        Options::Limits => {
            name == b"--expand".as_slice()
                || name == b"--ticks".as_slice()
                || name == b"--period".as_slice()
        }
    }
}

/// Whether the words are these options, each at most once.
fn are_options(words: &[Name], options: Options) -> bool
    ensures { result ≡ are_options (is_option options) words.now }
{
    let mut rest = words;
    while let [name, _value, more @ ..] = rest {
        if !is_option(options, name) {
            return false;
        }
        if !is_unset(more, name) {
            return false;
        }
        rest = more;
    }
    rest.is_empty()
}

/// The ID of the main tree, where options name one.
fn main_of<'a>(options: &'a [Name]) -> Option<&'a Name>
    ensures { option_copied result ≡ value_of (codes "--main") options.now }
{
    value_of(options, b"--main")
}

/// A number from 1 to `MOST_ROUNDS`.
fn as_rounds(number: Option<i64>) -> Option<u32>
    ensures { result ≡ as_count most_rounds number }
{
    match number {
        Some(n @ 1..=MOST_ROUNDS) => Some(n as u32),
        _ => None,
    }
}

/// The number that the option `--ticks` gives.
#[tactic(auto, unfolding(spec_program::specs::Words::rounds_in))]
fn rounds_in(options: &[Name]) -> Option<u32>
    ensures { result ≡ rounds_in options.now }
{
    match value_of(options, b"--ticks") {
        Some(word) => as_rounds(int(word.list())),
        None => None,
    }
}

/// The command `tick` with these words after it.
fn read_tick<'a>(words: &'a [Name]) -> Option<Command<'a>>
    ensures command { MatchOption result (tick_of words.now ≡ None) (λ c. tick_of words.now ≡ Some (command_seen c)) }
    ensures range { IfSome result (λ c. IsInRange (command_seen c)) }
{
    let [tree, world, options @ ..] = words else {
        return None;
    };
    if !are_options(options, Options::Main) {
        return None;
    }
    Some(Command::Tick {
        tree,
        world,
        main: main_of(options),
    })
}

/// The command `live` with these words after it.
fn read_live<'a>(words: &'a [Name]) -> Option<Command<'a>>
    ensures command { MatchOption result (live_of words.now ≡ None) (λ c. live_of words.now ≡ Some (command_seen c)) }
    ensures range { IfSome result (λ c. IsInRange (command_seen c)) }
{
    let [tree, world, options @ ..] = words else {
        return None;
    };
    if !are_options(options, Options::Rounds) {
        return None;
    }
    match rounds_in(options) {
        Some(rounds) => Some(Command::Live {
            tree,
            world,
            rounds,
            main: main_of(options),
        }),
        None => None,
    }
}

/// The number of leaves, from 1 to `MOST_LEAVES`, that a word is.
fn leaves_in(word: &Name) -> Option<u32>
    ensures number { result ≡ as_count most_leaves (int_in word.now) }
    ensures few { IfSome result (λ leaves. leaves ≤ most_leaves) }
{
    match int(word.list()) {
        Some(n @ 1..=MOST_LEAVES) => Some(n as u32),
        _ => None,
    }
}

/// The command `load` with these words after it.
fn read_load<'a>(words: &'a [Name]) -> Option<Command<'a>>
    ensures command { MatchOption result (load_of words.now ≡ None) (λ c. load_of words.now ≡ Some (command_seen c)) }
    ensures range { IfSome result (λ c. IsInRange (command_seen c)) }
{
    let [word] = words else {
        return None;
    };
    match leaves_in(word) {
        Some(leaves) => Some(Command::Load { leaves }),
        None => None,
    }
}

/// The ID of the main tree, where the words are options that name one or none.
fn main_in<'a>(options: &'a [Name]) -> Option<Option<&'a Name>>
    ensures { MatchOption result (main_in options.now ≡ None) (λ main. main_in options.now ≡ Some (option_copied main)) }
{
    if !are_options(options, Options::Main) {
        return None;
    }
    Some(main_of(options))
}

/// Options without `--strict`, which stands before or after the other one.
fn without_strict(options: &[Name]) -> &[Name]
    ensures { result.now ≡ without_strict options.now }
{
    match options {
        [flag] if flag.list() == b"--strict".as_slice() => &options[1..],
        [flag, _, _] if flag.list() == b"--strict".as_slice() => &options[1..],
        [_, _, flag] if flag.list() == b"--strict".as_slice() => &options[..2],
        _ => options,
    }
}

/// The command `check` with these words after it.
fn read_check<'a>(words: &'a [Name]) -> Option<Command<'a>>
    ensures command { MatchOption result (check_of words.now ≡ None) (λ c. check_of words.now ≡ Some (command_seen c)) }
    ensures range { IfSome result (λ c. IsInRange (command_seen c)) }
{
    let [tree, options @ ..] = words else {
        return None;
    };
    let main = main_in(without_strict(options))?;
    Some(Command::Check { tree, main })
}

/// The command `dead` with these words after it.
fn read_dead<'a>(words: &'a [Name]) -> Option<Command<'a>>
    ensures command { MatchOption result (dead_of words.now ≡ None) (λ c. dead_of words.now ≡ Some (command_seen c)) }
    ensures range { IfSome result (λ c. IsInRange (command_seen c)) }
{
    let [tree, options @ ..] = words else {
        return None;
    };
    let main = main_in(options)?;
    Some(Command::Dead { tree, main })
}

/// How many words stand before the first `--main`.
fn words_before_main(words: &[Name]) -> usize
    ensures within { result ≤ length words.now }
    ensures before { take result words.now ≡ before_main words.now }
    ensures following { drop result words.now ≡ from_main words.now }
{
    match words {
        [word, rest @ ..] if word.list() != b"--main".as_slice() => 1 + words_before_main(rest),
        _ => 0,
    }
}

/// The command `exclusive` with these words after it.
fn read_exclusive<'a>(words: &'a [Name]) -> Option<Command<'a>>
    ensures command { MatchOption result (exclusive_of words.now ≡ None) (λ c. exclusive_of words.now ≡ Some (command_seen c)) }
    ensures range { IfSome result (λ c. IsInRange (command_seen c)) }
{
    let [tree, words @ ..] = words else {
        return None;
    };
    let (ids, options) = words.split_at(words_before_main(words));
    if ids.is_empty() {
        return None;
    }
    let main = main_in(options)?;
    Some(Command::Exclusive { tree, ids, main })
}

/// A number in this range.
fn in_range(number: Option<i64>, least: u32, most: u32) -> Option<u32>
    ensures number { result ≡ in_range least most number }
    ensures within { IfSome result (λ n. (least ≤ n) × (n ≤ most)) }
{
    match number {
        Some(n) if i64::from(least) <= n && n <= i64::from(most) => Some(n as u32),
        _ => None,
    }
}

/// The number in this range that an option gives, or `default` where it is not written.
fn number_or(options: &[Name], name: &[u8], default: u32, least: u32, most: u32) -> Option<u32>
    requires least { least ≤ default }
    requires most { default ≤ most }
    ensures number { result ≡ number_or default least most (value_of name.now options.now) }
    ensures within { IfSome result (λ n. (least ≤ n) × (n ≤ most)) }
{
    match value_of(options, name) {
        None => Some(default),
        Some(word) => in_range(int(word.list()), least, most),
    }
}

/// The file that the words of a plan name, and its limits: how many sequences may be added, how many
/// ticks one run may have, and the time from one tick to the next.
fn limited_words<'a>(words: &'a [Name]) -> Option<(&'a Name, u32, u32, u32)>
    ensures limits { MatchOption result (limited_words words.now ≡ None)
        (λ l. limited_words words.now ≡ Some (l.0.now, l.1, l.2, l.3)) }
    ensures range { IfSome result (λ l. AreLimits l.1 l.2 l.3) }
{
    let [world, options @ ..] = words else {
        return None;
    };
    if !are_options(options, Options::Limits) {
        return None;
    }
    let expand = number_or(options, b"--expand", 100, 0, 120)?;
    let ticks = number_or(options, b"--ticks", 1_000, 1, 10_000)?;
    let period = number_or(options, b"--period", 100, 0, 1_000_000)?;
    Some((world, expand, ticks, period))
}

/// The command `plan` with these words after it.
fn read_plan<'a>(words: &'a [Name]) -> Option<Command<'a>>
    ensures command { MatchOption result (plan_of words.now ≡ None) (λ c. plan_of words.now ≡ Some (command_seen c)) }
    ensures range { IfSome result (λ c. IsInRange (command_seen c)) }
{
    let (world, expand, ticks, period) = limited_words(words)?;
    Some(Command::Plan {
        world,
        expand,
        ticks,
        period,
    })
}

/// The command `gplan` with these words after it.
fn read_ground_plan<'a>(words: &'a [Name]) -> Option<Command<'a>>
    ensures command { MatchOption result (ground_plan_of words.now ≡ None) (λ c. ground_plan_of words.now ≡ Some (command_seen c)) }
    ensures range { IfSome result (λ c. IsInRange (command_seen c)) }
{
    let (world, expand, ticks, period) = limited_words(words)?;
    Some(Command::GroundPlan {
        world,
        expand,
        ticks,
        period,
    })
}

/// The command `ground` with these words after it.
fn read_ground<'a>(words: &'a [Name]) -> Option<Command<'a>>
    ensures command { MatchOption result (ground_of words.now ≡ None) (λ c. ground_of words.now ≡ Some (command_seen c)) }
    ensures range { IfSome result (λ c. IsInRange (command_seen c)) }
{
    let [world] = words else {
        return None;
    };
    Some(Command::Ground { world })
}

/// The command `mock` with these words after it, of which the first is no `--print`.
fn read_mock_run<'a>(words: &'a [Name]) -> Option<Command<'a>>
    ensures command { MatchOption result (mock_run_of words.now ≡ None) (λ c. mock_run_of words.now ≡ Some (command_seen c)) }
    ensures range { IfSome result (λ c. IsInRange (command_seen c)) }
{
    let [tree, world, rules, options @ ..] = words else {
        return None;
    };
    let main = main_in(options)?;
    Some(Command::Mock {
        tree,
        world,
        rules,
        main,
    })
}

/// The command `expect` with these words after it.
fn read_expect<'a>(words: &'a [Name]) -> Option<Command<'a>>
    ensures command { MatchOption result (expect_of words.now ≡ None) (λ c. expect_of words.now ≡ Some (command_seen c)) }
    ensures range { IfSome result (λ c. IsInRange (command_seen c)) }
{
    let [tree, world, expect, options @ ..] = words else {
        return None;
    };
    let main = main_in(options)?;
    Some(Command::Expect {
        tree,
        world,
        expect,
        main,
    })
}

/// The command `mock --print` with these words after it.
fn read_mock_print<'a>(words: &'a [Name]) -> Option<Command<'a>>
    ensures command { MatchOption result (mock_print_of words.now ≡ None) (λ c. mock_print_of words.now ≡ Some (command_seen c)) }
    ensures range { IfSome result (λ c. IsInRange (command_seen c)) }
{
    let [tree, rules, options @ ..] = words else {
        return None;
    };
    let main = main_in(options)?;
    Some(Command::MockPrint { tree, rules, main })
}

/// The command `mock` with these words after it.
fn read_mock<'a>(words: &'a [Name]) -> Option<Command<'a>>
    ensures command { MatchOption result (mock_of words.now ≡ None) (λ c. mock_of words.now ≡ Some (command_seen c)) }
    ensures range { IfSome result (λ c. IsInRange (command_seen c)) }
{
    match words {
        [word, rest @ ..] if word.list() == b"--print".as_slice() => read_mock_print(rest),
        _ => read_mock_run(words),
    }
}

/// The command that the words are.
pub fn read_command<'a>(words: &'a [Name]) -> Option<Command<'a>>
    ensures command { MatchOption result (command_of words.now ≡ None) (λ c. command_of words.now ≡ Some (command_seen c)) }
    ensures range { IfSome result (λ c. IsInRange (command_seen c)) }
{
    let [word, words @ ..] = words else {
        return None;
    };
    if word.list() == b"tick".as_slice() {
        read_tick(words)
    } else if word.list() == b"live".as_slice() {
        read_live(words)
    } else if word.list() == b"load".as_slice() {
        read_load(words)
    } else if word.list() == b"check".as_slice() {
        read_check(words)
    } else if word.list() == b"dead".as_slice() {
        read_dead(words)
    } else if word.list() == b"plan".as_slice() {
        read_plan(words)
    } else if word.list() == b"mock".as_slice() {
        read_mock(words)
    } else if word.list() == b"ground".as_slice() {
        read_ground(words)
    } else if word.list() == b"gplan".as_slice() {
        read_ground_plan(words)
    } else if word.list() == b"exclusive".as_slice() {
        read_exclusive(words)
    } else if word.list() == b"expect".as_slice() {
        read_expect(words)
    } else {
        None
    }
}

/// What is served: the files that the words name, the world's only where there is one, and the ID of the main tree where
/// they name one.
#[derive(Clone, Copy)]
pub struct Serve<'a> {
    pub tree: &'a Name,
    pub world: Option<&'a Name>,
    pub main: Option<&'a Name>,
}

/// A tree that is served, in a world where there is one, with these options.
fn served<'a>(tree: &'a Name, world: Option<&'a Name>, options: &'a [Name]) -> Option<Serve<'a>>
    ensures { MatchOption result (definition.served tree.now (option_copied world.entry) options.now ≡ None)
        (λ s. definition.served tree.now (option_copied world.entry) options.now ≡ Some (serve_seen s)) }
{
    if !are_options(options, Options::Main) {
        return None;
    }
    Some(Serve {
        tree,
        world,
        main: main_of(options),
    })
}

/// What the words after `serve` name.
fn served_by<'a>(words: &'a [Name]) -> Option<Serve<'a>>
    ensures { MatchOption result (definition.served_by words.now ≡ None)
        (λ s. definition.served_by words.now ≡ Some (serve_seen s)) }
{
    let [tree, rest @ ..] = words else {
        return None;
    };
    match rest {
        [word, options @ ..] if word.list() != b"--main".as_slice() => {
            served(tree, Some(word), options)
        }
        _ => served(tree, None, rest),
    }
}

/// What is served where the words are `serve` and what it takes.
pub fn read_serve<'a>(words: &'a [Name]) -> Option<Serve<'a>>
    ensures { MatchOption result (serve_of words.now ≡ None) (λ s. serve_of words.now ≡ Some (serve_seen s)) }
{
    match words {
        [word, words @ ..] if word.list() == b"serve".as_slice() => served_by(words),
        _ => None,
    }
}

/// A word of the command line.
pub fn word_of(alloc: Global, word: &str) -> Result<Name, NoMemory>
    ensures { IfOk result (λ name. name ≡ word.now) }
{
    Name::copied(alloc, word.as_bytes())
}

/// Why the words of the command line can't be had.
pub enum NoWords {
    /// A word is no UTF-8.
    NotUtf8,
    /// The program is out of memory.
    NoMemory,
}

impl From<NoMemory> for NoWords {
    ghost use Rattle.cli_words.specs.declared.words.NoWords.TheVariants as no_words;

    ghost from_gives = { λ _ e. e ≡ no_words.NoMemory };

    fn from(_e: NoMemory) -> NoWords {
        NoWords::NoMemory
    }
}

impl<T: Drop> From<AllocFailed<T>> for NoWords {
    ghost use Rattle.cli_words.specs.declared.words.NoWords.TheVariants as no_words;

    ghost from_gives = { λ _ e. e ≡ no_words.NoMemory };

    fn from(_e: AllocFailed<T>) -> NoWords {
        NoWords::NoMemory
    }
}

/// What it means that the host does not give the words.
fn refused_words(error: io::Error) -> NoWords
    ensures { (result ≡ NoWords.NoMemory) ↔ (error_kind error ≡ ErrorKind.OutOfMemory) }
{
    match error.kind() {
        ErrorKind::OutOfMemory => NoWords::NoMemory,
        _ => NoWords::NotUtf8,
    }
}

/// The words of the command line without the program's own name.
pub fn words_of(rt: &(impl Env + AllocGlobal)) -> Result<Vec<Name>, NoWords> {
    let mut words = Vec::new(rt.alloc());
    for word in env::args(rt).map_err(refused_words)?.skip(1) {
        words.push(word_of(rt.alloc(), word.as_str())?)?;
    }
    Ok(words)
}
