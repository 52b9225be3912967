// The words of the command line.

ghost use Rattle.std.specs.Prelude.{◌≡◌, ◌≤◌, MatchResult, Some, None, true, false, map, string_bytes};
ghost use Rattle.hermes.specs.Words.{is_run, is_dashes, is_plain_name, is_file_part, begins_file_part, has_option};
ghost use Rattle.hermes.specs.Words.{behind_option, name_of, stop_of, usage_fault, file_of, strict_of};

/// What the words command.
#[derive(Clone, Copy, Debug, PartialEq, Eq)]
pub struct Command<'a> {
    /// Whether the source is read as strict code.
    pub strict: bool,
    /// The name of the file that holds the source.
    pub file: &'a str,
}

/// The command: `run`, then the option `-strict` or not, then the name of a file. The name is not empty. It may
/// have the word `--` before it, and begins with `-` only there.
///
/// Where the words are no command, the number of the first word with which they begin none, or how many
/// words there are where all of them begin one.
pub fn command_of(words: &[String]) -> Result<Command<'_>, usize>
    ensures { MatchResult result
        (λ command. (usage_fault (map string_bytes words.now) ≡ None)
        × (command.strict ≡ strict_of (map string_bytes words.now))
        × (command.file.now ≡ file_of (map string_bytes words.now)))
        (λ at. usage_fault (map string_bytes words.now) ≡ Some at) }
{
    match words {
        [] => Err(0),
        [word, others @ ..] => {
            if !is_run(word.as_str()) {
                return Err(0);
            }
            match behind_run(others) {
                Ok(command) => Ok(command),
                Err(at) => Err(at + 1),
            }
        }
    }
}

// What the words behind `run` command, or how many of them begin a command there.
fn behind_run(words: &[String]) -> Result<Command<'_>, usize>
    ensures { MatchResult result
        (λ command. (is_file_part (behind_option (map string_bytes words.now)) ≡ true)
        × (command.strict ≡ has_option (map string_bytes words.now))
        × (command.file.now ≡ name_of (behind_option (map string_bytes words.now))))
        (λ at. (is_file_part (behind_option (map string_bytes words.now)) ≡ false)
        × (stop_of (λ more. begins_file_part (behind_option more)) (map string_bytes words.now)
        ≡ at)
        × (at ≤ 3)) }
{
    let strict = starts_with_option(words);
    let skipped = if strict { 1 } else { 0 };
    match file_part(&words[skipped..]) {
        Ok(file) => Ok(Command { strict, file }),
        Err(at) => Err(skipped + at),
    }
}

// The name that the words behind the options give, or how many of them begin such words.
fn file_part(words: &[String]) -> Result<&str, usize>
    ensures { MatchResult result
        (λ name. (is_file_part (map string_bytes words.now) ≡ true)
        × (name.now ≡ name_of (map string_bytes words.now)))
        (λ at. (is_file_part (map string_bytes words.now) ≡ false)
        × (stop_of begins_file_part (map string_bytes words.now) ≡ at)
        × (at ≤ 2)) }
{
    match words {
        [] => Err(0),
        [name] => {
            if is_plain_name(name.as_str()) {
                Ok(name.as_str())
            } else if is_dashes(name.as_str()) {
                Err(1)
            } else {
                Err(0)
            }
        }
        [dashes, name, rest @ ..] => {
            if !is_dashes(dashes.as_str()) {
                Err(if is_plain_name(dashes.as_str()) { 1 } else { 0 })
            } else if name.is_empty() {
                Err(1)
            } else if rest.is_empty() {
                Ok(name.as_str())
            } else {
                Err(2)
            }
        }
    }
}

fn is_run(word: &str) -> bool
    ensures { result ≡ is_run word.now }
{
    word == "run"
}

fn starts_with_option(words: &[String]) -> bool
    ensures { result ≡ has_option (map string_bytes words.now) }
{
    match words {
        [] => false,
        [word, ..] => word.as_str() == "-strict",
    }
}

fn is_dashes(word: &str) -> bool
    ensures { result ≡ is_dashes word.now }
{
    word == "--"
}

fn is_plain_name(word: &str) -> bool
    ensures { result ≡ is_plain_name word.now }
{
    match word.as_bytes() {
        [] => false,
        [first, ..] => *first != b'-',
    }
}
