//! What a line asks for besides its command.

ghost use Rattle.std.specs.Prelude.{◌≡◌, IfOk, codes, map, string_bytes};
ghost use Rattle.std.specs.List.{list_any};
ghost use Rattle.std.specs.Str.{bytes_eq};
ghost use Rattle.ee_cli_commands.specs.Options.{help_read};
ghost use Rattle.ee_cli_commands.specs.Inner.Options.{asks_for_help};

use std::alloc::{AllocError, Global};

/// Whether a line asks for a second line after a fault: one of its words is `--explain`.
pub fn asks_to_explain(words: &[String]) -> bool
    ensures { result ≡ list_any (λ w. bytes_eq (string_bytes w) (codes "--explain")) words.now }
{
    words.iter().any(|word| word.as_str() == "--explain")
}

// Whether the word after the program's name is `help`.
fn asks_for_help(words: &[String]) -> bool
    ensures { result ≡ asks_for_help (map (λ w. string_bytes w) words.now) }
{
    match words {
        [_, word, ..] => word.as_str() == "help",
        _ => false,
    }
}

/// The words of a line, of which `help` and `help COMMAND` are read as `--help` and `COMMAND --help`.
pub fn read_help(alloc: Global, words: Vec<String>) -> Result<Vec<String>, AllocError>
    ensures { IfOk result (λ read. map (λ w. string_bytes w) read.items ≡ help_read (map (λ w. string_bytes w) words.items)) }
{
    let mut words = words;
    if asks_for_help(&words) {
        let _help = words.remove(1);
        words.push(String::from_str(alloc, "--help")?)?;
    }
    Ok(words)
}
