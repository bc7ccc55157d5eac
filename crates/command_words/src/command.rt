//! The commands, by their first word and the word behind it.

ghost use Rattle.std.specs.Prelude.{MatchBool, option_map};
ghost use Rattle.command_words.specs.Commands.{IsPlainWord};
ghost use Rattle.command_words.specs.Spelled.{FindsParts, FindsNumber, FindsName};

use cluster_script::name_at;
use itoa::Buffer;
use journal_print::Mode;

/// What a program is asked to do.
#[derive(Clone, Copy, Debug, PartialEq, Eq)]
pub enum Command<'a> {
    /// Run a script, and print its trace in this mode.
    Replay(Mode),
    /// Print a script that is made from this number, 0 to 18,446,744,073,709,551,615.
    Gen(u64),
    /// Say what records are.
    Show,
    /// Serve as a data server.
    Ds,
    /// Serve as the metadata server.
    Mds,
    /// Write the file of this name: 1 to 255 letters, digits, `.`, `_` and `-`, and none that begins
    /// with `-` but `-` itself.
    Put(&'a str),
    /// Read the file of this name: as `Put`'s.
    Get(&'a str),
}

/// The command of this first word and of the word behind it.
pub(crate) fn command_from<'a>(word: &str, operand: Option<&'a str>) -> Option<Command<'a>>
    ensures { FindsParts word.now (option_map (λ o. o.now) operand.entry) result }
{
    match (word, operand) {
        ("replay", None) => Some(Command::Replay(Mode::Full)),
        ("replay", Some("brief")) => Some(Command::Replay(Mode::Brief)),
        ("replay", Some("count")) => Some(Command::Replay(Mode::Count)),
        ("gen", Some(digits)) => Some(Command::Gen(number_of(digits)?)),
        ("show", None) => Some(Command::Show),
        ("ds", None) => Some(Command::Ds),
        ("mds", None) => Some(Command::Mds),
        ("put", Some(name)) => Some(Command::Put(command_name(name)?)),
        ("get", Some(name)) => Some(Command::Get(command_name(name)?)),
        _ => None,
    }
}

/// The number that the word is: decimal digits with no sign and no leading zero.
fn number_of(word: &str) -> Option<u64>
    ensures { FindsNumber word.now result }
{
    let number = word.parse::<u64>().ok()?;
    let mut buffer = Buffer::new();
    (buffer.format(number) == word).then_some(number)
}

/// The name that the word is.
fn command_name(word: &str) -> Option<&str>
    ensures { FindsName word.now (option_map (λ n. n.now) result) }
{
    if is_option(word) {
        return None;
    }
    name_at(word.as_bytes())
}

/// It begins with `-`, and is not `-` alone.
fn is_option(word: &str) -> bool
    ensures { MatchBool result (¬ (IsPlainWord word.now)) (IsPlainWord word.now) }
{
    matches!(word.as_bytes(), [b'-', _, ..])
}
