ghost use Rattle.std.specs.Prelude.{◌≡◌};
ghost use Rattle.transferd.specs.Words.{is_plain, is_script_form, texts_of};

use std::rc::RcStr;

// A word that isn't empty and isn't an option.
fn is_plain_word(word: &str) -> bool
    ensures { result ≡ is_plain word.now }
{
    match word.as_bytes() {
        [] => false,
        [first, ..] => *first != b'-',
    }
}

/// Whether the words are `script SETUP`, the program's name left out. Nothing is read for it.
pub fn are_script_words(words: &[RcStr]) -> bool
    ensures { result ≡ is_script_form (texts_of words.now) }
{
    match words {
        [command, setup] => command.as_str() == "script" && is_plain_word(setup.as_str()),
        _ => false,
    }
}
