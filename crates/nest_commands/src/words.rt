//! The command line.
ghost use Rattle.std.specs.Prelude.{◌≡◌, IfSome, None, map, string_bytes};
ghost use Rattle.std.specs.Option.{option_map};
ghost use Rattle.nest_commands.specs.Words.{names_file as is_file_word, plan_of, replay_of};

/// The files of `plan IN OUT`.
#[derive(Drop)]
pub struct Files<'a> {
    pub input: &'a str,
    pub output: &'a str,
}

/// The files of `replay IN CODE`.
#[derive(Drop)]
pub struct CodeFiles<'a> {
    pub input: &'a str,
    pub code: &'a str,
}

/// Whether a word names a file: it isn't empty, and it doesn't begin as an option does.
fn names_file(word: &str) -> bool
    ensures { result ≡ is_file_word word.now }
{
    match word.as_bytes() {
        [] => false,
        [first, ..] => *first != b'-',
    }
}

/// The files of `plan IN OUT`, where the words are that, with IN and OUT different.
///
/// No memory is taken.
pub fn plan_words(words: &[String]) -> Option<Files<'_>>
    ensures files { option_map (λ f. record { input = f.input.now; output = f.output.now }) result
        ≡ plan_of (map string_bytes words.now) }
    ensures alone { IfSome result (λ _. replay_of (map string_bytes words.now) ≡ None) }
{
    let [command, input, output] = words else {
        return None;
    };
    let input = input.as_str();
    let output = output.as_str();
    if command.as_str() == "plan" && names_file(input) && names_file(output) && input != output {
        Some(Files { input, output })
    } else {
        None
    }
}

/// The files of `replay IN CODE`, where the words are that. Both may be one file.
///
/// No memory is taken.
pub fn replay_words(words: &[String]) -> Option<CodeFiles<'_>>
    ensures { option_map (λ f. record { input = f.input.now; code = f.code.now }) result
        ≡ replay_of (map string_bytes words.now) }
{
    let [command, input, code] = words else {
        return None;
    };
    let input = input.as_str();
    let code = code.as_str();
    if command.as_str() == "replay" && names_file(input) && names_file(code) {
        Some(CodeFiles { input, code })
    } else {
        None
    }
}
