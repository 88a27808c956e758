// What a program's arguments ask for.
ghost use Rattle.std.specs.Prelude.{◌↔◌, ◌≡◌, ◌<◌, length, map, string_bytes, IsErr, IfOk};
ghost use Rattle.dayfolder.specs.Arguments.{folder_of, chosen};

use thiserror::Error;

// What the words after a program's name ask for.
#[derive(Clone, Copy)]
pub enum Request<'a> {
    // the help
    Help,
    // the day of this folder
    Day(&'a str),
}

// More than one word stands after the program's name.
#[derive(Clone, Copy, Debug, Error)]
#[error("too many arguments")]
pub struct TooManyArguments;

impl<'a> Request<'a> {
    // No word asks for the day of the folder that the program runs in, `--help` for the help, another word for the day of that
    // folder.
    pub fn of(words: &'a [String]) -> Result<Request<'a>, TooManyArguments>
        ensures folder { IfOk result (λ request. folder_of request ≡ chosen (map string_bytes words.now)) }
        ensures too_many { IsErr result ↔ (1 < length words.now) }
    {
        match words {
            [] => Ok(Request::Day(".")),
            [word] if word.as_str() == "--help" => Ok(Request::Help),
            [word] => Ok(Request::Day(word.as_str())),
            _ => Err(TooManyArguments),
        }
    }
}
