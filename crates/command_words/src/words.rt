//! What words ask for.

ghost use Rattle.std.specs.Prelude.{◌≡◌, map, option_map};
ghost use Rattle.std.specs.String.{string_bytes};
ghost use Rattle.command_words.specs.Commands.{FindsCommand};
ghost use Rattle.command_words.specs.Spelled.{are_spelled};

use crate::command::{Command, command_from};
use crate::grammar::parts_met;
use ff_xdr::NoMemory;
use std::alloc::Global;

/// What the words behind the program's name ask for. `None` is that they are no command, and `NoMemory`
/// that memory to read them was wanted. A number is 0 to 18,446,744,073,709,551,615 in decimal, with no
/// sign and no leading zero; a name is 1 to 255 letters, digits, `.`, `_` and `-`, and begins with `-` only
/// if it is `-`. One `--` before such a word, or before `brief` and `count`, means nothing.
pub fn asked<'a>(alloc: Global, words: &'a [String]) -> Result<Option<Command<'a>>, NoMemory>
    ensures { FindsCommand (map string_bytes words.now) result }
{
    let Some((word, operand)) = parts_met(alloc, words)? else {
        return Ok(None);
    };
    if !are_spelled(words, word, operand) {
        return Ok(None);
    }
    Ok(command_from(word, operand))
}

/// The words are the first word and the operand, `--` before it or not.
fn are_spelled(words: &[String], word: &str, operand: Option<&str>) -> bool
    ensures { result ≡ are_spelled (map string_bytes words.now) word.now (option_map (λ o. o.now) operand.entry) }
{
    match (words, operand) {
        ([first], None) => first.as_str() == word,
        ([first, last], Some(operand)) => first.as_str() == word && last.as_str() == operand,
        ([first, dashes, last], Some(operand)) => {
            first.as_str() == word && dashes.as_str() == "--" && last.as_str() == operand
        }
        _ => false,
    }
}
