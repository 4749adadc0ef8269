ghost use Rattle.std.specs.Prelude.{◌≡◌, ◌<◌, ◌≤◌, ◌^◌, Some, IfSome, option_map};
ghost use Rattle.run_text.specs.Sizes.{AreSizes};
ghost use Rattle.fastpass_run.specs.Words.{texts, asked_by_words, asked_by_task, asked_with, asked_to_plan, asked_to_make, asked_to_audit, asked_to_receive, asked_alone, options_of, no_options, with_option, names_a_net, names_a_run, net_of_options, sizes_of, policy_of, plain_up_to, any_number, OptionsAreWithin, HasSizes};

use clos_topology::Net;
use run_text::Sizes;
use trace_text::Command;

/// The slots of a batch where nothing else is asked for.
const BATCH: u8 = 8;

/// The greatest batch size.
const MOST_BATCH: u32 = 64;

/// The rounds of a window where nothing else is asked for.
const WINDOW: u8 = 8;

/// The most rounds of a window.
const MOST_WINDOW: u32 = 16;

/// How many workers there are where nothing else is asked for.
const WORKERS: u8 = 4;

/// The most workers.
const MOST_WORKERS: u32 = 16;

/// How many path workers there are where nothing else is asked for.
const PATHS: u8 = 2;

/// The most path workers.
const MOST_PATHS: u32 = 16;

/// The most racks, hosts of a rack, and cores.
const MOST_OF_NET: u32 = 64;

/// Where the trace comes from: its rows are read for a command, or a number makes it and it is replayed.
#[derive(Clone, Copy, Debug)]
pub(crate) enum Input {
    Read(Command),
    Made(u32),
}

/// Which flow goes first in a plan: the one that was served least recently, or the one that needs the fewest slots.
#[derive(Clone, Copy, Debug)]
pub(crate) enum Policy {
    Last,
    Fewest,
}

/// What the words ask for: the text of a trace, or its plan by need, in a run of these sizes; the audit of a text, of a network and
/// batches of `b` slots; or the text of a script's takeover.
#[derive(Clone, Copy, Debug)]
pub(crate) enum Task {
    Write { input: Input, sizes: Sizes },
    PlanByNeed { sizes: Sizes },
    Audit { net: Net, b: u8 },
    TakeOver,
}

/// The options that were named so far.
#[derive(Clone, Copy, Debug)]
struct Options {
    batch: Option<u8>,
    window: Option<u8>,
    workers: Option<u8>,
    paths: Option<u8>,
    policy: Option<Policy>,
    racks: Option<u16>,
    hosts: Option<u16>,
    cores: Option<u16>,
}

impl Options {
    /// None named.
    fn none() -> Options
        ensures { result ≡ no_options }
    {
        Options {
            batch: None,
            window: None,
            workers: None,
            paths: None,
            policy: None,
            racks: None,
            hosts: None,
            cores: None,
        }
    }

    /// Whether one is named that tells how a trace is run.
    fn names_a_run(self) -> bool
        ensures { result ≡ names_a_run self }
    {
        self.window.is_some() || self.workers.is_some() || self.paths.is_some()
    }

    /// The sizes of a run: those that are named, and else those that stand where nothing is said.
    fn sizes(self) -> Sizes
        requires { OptionsAreWithin self }
        ensures sizes { result ≡ sizes_of self }
        ensures within { AreSizes result }
    {
        Sizes {
            b: self.batch.unwrap_or(BATCH),
            g: self.window.unwrap_or(WINDOW),
            workers: self.workers.unwrap_or(WORKERS),
            paths: self.paths.unwrap_or(PATHS),
        }
    }

    /// Whether one is named that tells a network.
    fn names_a_net(self) -> bool
        ensures { result ≡ names_a_net self }
    {
        self.racks.is_some() || self.hosts.is_some() || self.cores.is_some()
    }

    /// The network whose three numbers are named, if they are and there is one.
    fn net(self) -> Option<Net>
        ensures { result ≡ net_of_options self }
    {
        Net::new(self.racks?, self.hosts?, self.cores?).ok()
    }
}

/// What the words ask for: `plan`, `replay`, or `make` and a number, and then `--batch n`, `--window n`, `--workers n` and `--paths n`,
/// for `plan` also `--policy last` or `--policy fewest`; or `audit`, and then `--racks n`, `--hosts n`, `--cores n` and, if need be,
/// `--batch n`: in any order and each at most once; or `receive` or `takeover` alone. None where they are refused.
pub(crate) fn read_task(words: &[&str]) -> Option<Task>
    ensures asked { option_map asked_by_task result ≡ asked_by_words (texts words.now) }
    ensures within { IfSome result HasSizes }
{
    let [word, rest @ ..] = words else {
        return None;
    };
    match *word {
        "plan" => plan(rest),
        "replay" => with_options(Input::Read(Command::Replay), rest),
        "make" => make(rest),
        "audit" => audit(rest),
        "receive" => alone(receive(), rest),
        "takeover" => alone(Task::TakeOver, rest),
        _ => None,
    }
}

/// The plan that is asked for by the pairs that follow its word.
fn plan(pairs: &[&str]) -> Option<Task>
    ensures asked { option_map asked_by_task result ≡ asked_to_plan (options_of (texts pairs.now) no_options) }
    ensures within { IfSome result HasSizes }
{
    let options = read_options(pairs)?;
    if options.names_a_net() {
        return None;
    }
    let sizes = options.sizes();
    match options.policy {
        Some(Policy::Fewest) => Some(Task::PlanByNeed { sizes }),
        _ => Some(Task::Write {
            input: Input::Read(Command::Plan),
            sizes,
        }),
    }
}

/// What is asked of the trace that a number makes, by the number and the pairs that follow it.
fn make(words: &[&str]) -> Option<Task>
    ensures asked { option_map asked_by_task result ≡ asked_to_make (texts words.now) }
    ensures within { IfSome result HasSizes }
{
    let [number, pairs @ ..] = words else {
        return None;
    };
    with_options(Input::Made(any_number(number)?), pairs)
}

/// What is asked of an input by the pairs that follow it.
fn with_options(input: Input, pairs: &[&str]) -> Option<Task>
    ensures asked { option_map asked_by_task result ≡ asked_with (Some input) (options_of (texts pairs.now) no_options) }
    ensures within { IfSome result HasSizes }
{
    let options = read_options(pairs)?;
    if options.names_a_net() || options.policy.is_some() {
        return None;
    }
    Some(Task::Write {
        input,
        sizes: options.sizes(),
    })
}

/// The audit that is asked for by the pairs that follow its word.
fn audit(pairs: &[&str]) -> Option<Task>
    ensures asked { option_map asked_by_task result ≡ asked_to_audit (options_of (texts pairs.now) no_options) }
    ensures within { IfSome result HasSizes }
{
    let options = read_options(pairs)?;
    if options.names_a_run() || options.policy.is_some() {
        return None;
    }
    Some(Task::Audit {
        net: options.net()?,
        b: options.batch.unwrap_or(BATCH),
    })
}

/// A trace of packets that a desk receives.
fn receive() -> Task
    ensures asked { asked_by_task result ≡ asked_to_receive }
    ensures within { HasSizes result }
{
    Task::Write {
        input: Input::Read(Command::Receive),
        sizes: Options::none().sizes(),
    }
}

/// What a word asks for that no other follows.
fn alone(task: Task, rest: &[&str]) -> Option<Task>
    requires { HasSizes task }
    ensures asked { option_map asked_by_task result ≡ asked_alone (asked_by_task task) (texts rest.now) }
    ensures within { IfSome result HasSizes }
{
    match rest {
        [] => Some(task),
        _ => None,
    }
}

fn read_options(pairs: &[&str]) -> Option<Options>
    ensures options { result ≡ options_of (texts pairs.now) no_options }
    ensures within { IfSome result OptionsAreWithin }
{
    let mut options = Options::none();
    let mut rest = pairs;
    while !rest.is_empty() {
        let [name, value, more @ ..] = rest else {
            return None;
        };
        options = with_option(name, value, options)?;
        rest = more;
    }
    Some(options)
}

/// One pair more. None where the name is another, or was there before, or its value is refused.
fn with_option(name: &str, value: &str, options: Options) -> Option<Options>
    requires { OptionsAreWithin options }
    ensures option { result ≡ with_option name.now value.now options }
    ensures within { IfSome result OptionsAreWithin }
{
    if name == "--batch" && options.batch.is_none() {
        let batch = plain_number(value, MOST_BATCH)? as u8;
        return Some(Options {
            batch: Some(batch),
            ..options
        });
    }
    if name == "--window" && options.window.is_none() {
        let window = plain_number(value, MOST_WINDOW)? as u8;
        return Some(Options {
            window: Some(window),
            ..options
        });
    }
    if name == "--workers" && options.workers.is_none() {
        let workers = plain_number(value, MOST_WORKERS)? as u8;
        return Some(Options {
            workers: Some(workers),
            ..options
        });
    }
    if name == "--paths" && options.paths.is_none() {
        let paths = plain_number(value, MOST_PATHS)? as u8;
        return Some(Options {
            paths: Some(paths),
            ..options
        });
    }
    if name == "--policy" && options.policy.is_none() {
        let policy = policy_named(value)?;
        return Some(Options {
            policy: Some(policy),
            ..options
        });
    }
    if name == "--racks" && options.racks.is_none() {
        let racks = plain_number(value, MOST_OF_NET)? as u16;
        return Some(Options {
            racks: Some(racks),
            ..options
        });
    }
    if name == "--hosts" && options.hosts.is_none() {
        let hosts = plain_number(value, MOST_OF_NET)? as u16;
        return Some(Options {
            hosts: Some(hosts),
            ..options
        });
    }
    if name == "--cores" && options.cores.is_none() {
        let cores = plain_number(value, MOST_OF_NET)? as u16;
        return Some(Options {
            cores: Some(cores),
            ..options
        });
    }
    None
}

/// The policy of this name.
fn policy_named(word: &str) -> Option<Policy>
    ensures { result ≡ policy_of word.now }
{
    match word {
        "last" => Some(Policy::Last),
        "fewest" => Some(Policy::Fewest),
        _ => None,
    }
}

/// A number from 1 to `most`, in plain decimal without a leading zero.
fn plain_number(word: &str, most: u32) -> Option<u32>
    ensures number { result ≡ plain_up_to most word.now }
    ensures within { IfSome result (λ n. (0 < n) × (n ≤ most)) }
{
    let bytes = word.as_bytes();
    if bytes.is_empty() || bytes[0] < b'1' || bytes[0] > b'9' {
        return None;
    }
    let Ok(n) = word.parse::<u32>() else {
        return None;
    };
    (n <= most).then_some(n)
}

/// A number of 32 bits in plain decimal: 0, or one without a leading zero.
fn any_number(word: &str) -> Option<u32>
    ensures { result ≡ any_number word.now }
{
    if word == "0" {
        return Some(0);
    }
    plain_number(word, u32::MAX)
}
