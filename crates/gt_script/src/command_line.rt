ghost use Rattle.gt_script.specs.CommandLine as spec;
ghost use Rattle.gt_script.specs.CommandLine.{IsCommandText, IsNowOf, IsSendOf, IsSendText, is_word, no_token, token_word};
ghost use Rattle.gt_values.specs.Forms.{is_moment};
ghost use Rattle.std.specs.Char.{is_ascii_graphic};
ghost use Rattle.std.specs.Fmt.{decimal};
ghost use Rattle.std.specs.List.{list_all};
ghost use Rattle.std.specs.Prelude.{IfOk, IfSome, IsNone, IsTrue, List, Option, ℕ, ◌++◌, ◌≡◌, ◌∷◌};
ghost use Rattle.std.specs.Str.{bytes_eq};

use gt_setup::Setup;
use gt_values::{Moment, Text, read_decimal};
use std::alloc::{AllocError, Global};

// The most bytes of a request's body.
const BODY_LIMIT: u64 = 8_388_608;

/// The command line of a script's line.
#[derive(Debug, Drop)]
pub enum CommandLine {
    End,
    Now(Moment),
    Restart,
    /// A request with this token, if it has one. Its body of `size` bytes, and a newline, follow.
    Send {
        token: Option<Text>,
        method: Text,
        target: Text,
        size: u64,
    },
}

/// What a command line says, which is given without its newline. `None` exactly where it is none. No line depends on the
/// setup.
pub fn read_command(
    alloc: Global,
    setup: &Setup,
    command: &[u8],
) -> Result<Option<CommandLine>, AllocError>
    ensures some { IfOk result (λ o. IfSome o
        (λ line. IsCommandText setup.now line command.now)) }
    ensures none { IfOk result (λ o. IsNone o → (line : CommandLine)
        → IsCommandText setup.now line command.now → ⊥) }
{
    let Ok(text) = str::from_utf8(command) else {
        return Ok(None);
    };
    if text == "end" {
        return Ok(Some(CommandLine::End));
    }
    if text == "restart" {
        return Ok(Some(CommandLine::Restart));
    }
    if let Some(seconds) = text.strip_prefix("now ") {
        return Ok(read_now(seconds));
    }
    match text.strip_prefix("send ") {
        Some(request) => read_send(alloc, request),
        None => Ok(None),
    }
}

// What follows `now `.
fn read_now(seconds: &str) -> Option<CommandLine>
    ensures some { IfSome result (λ line. IsNowOf line seconds.now) }
    ensures none { IsNone result → (moment : ℕ) → IsTrue (is_moment moment)
        → seconds.now ≡ decimal moment → ⊥ }
{
    let number = read_decimal(seconds, u64::MAX)?;
    match Moment::of(number) {
        Some(moment) => Some(CommandLine::Now(moment)),
        None => None,
    }
}

// What follows `send `.
fn read_send(alloc: Global, request: &str) -> Result<Option<CommandLine>, AllocError>
    ensures some { IfOk result (λ o. IfSome o (λ line. IsSendOf line request.now)) }
    ensures none { IfOk result (λ o. IsNone o → (token : Option (List ℕ))
        (method target : List ℕ) (size : ℕ)
        → IsSendText token method target size request.now → ⊥) }
{
    let Some((token, behind_token)) = first_word(request) else {
        return Ok(None);
    };
    let Some((method, behind_method)) = first_word(behind_token) else {
        return Ok(None);
    };
    let Some((target, digits)) = first_word(behind_method) else {
        return Ok(None);
    };
    let Some(size) = read_decimal(digits, BODY_LIMIT) else {
        return Ok(None);
    };
    let token = token_of(alloc, token)?;
    let method = Text::copy_of(alloc, method)?;
    let target = Text::copy_of(alloc, target)?;
    Ok(Some(CommandLine::Send {
        token,
        method,
        target,
        size,
    }))
}

// The word before the first space, and what follows that space.
fn first_word(text: &str) -> Option<(&str, &str)>
    ensures some { IfSome result (λ p. IsTrue (is_word p.0.now)
        × (text.now ≡ p.0.now ++ 32 ∷ p.1.now)) }
    ensures none { IsNone result → (word rest : List ℕ) → IsTrue (is_word word)
        → text.now ≡ word ++ 32 ∷ rest → ⊥ }
{
    let (word, rest) = text.split_once(' ')?;
    if is_word(word.as_bytes()) {
        Some((word, rest))
    } else {
        None
    }
}

// The token that a word stands for.
fn token_of(alloc: Global, word: &str) -> Result<Option<Text>, AllocError>
    requires { IsTrue (is_word word.now) }
    ensures word { IfOk result (λ token. token_word token ≡ word.now) }
    ensures token { IfOk result (λ token. IfSome token (λ t. IsTrue (spec.is_token t))) }
{
    if is_no_token(word) {
        return Ok(None);
    }
    Ok(Some(Text::copy_of(alloc, word)?))
}

fn is_no_token(word: &str) -> bool
    ensures { result ≡ bytes_eq word.now no_token }
{
    word == "-"
}

fn is_word(text: &[u8]) -> bool
    ensures { result ≡ is_word text.now }
{
    !text.is_empty() && is_graphic(text)
}

fn is_graphic(text: &[u8]) -> bool
    ensures { result ≡ list_all is_ascii_graphic text.now }
{
    text.iter().all(|byte| byte.is_ascii_graphic())
}
