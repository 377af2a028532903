//! The words of the command line.
ghost use Rattle.std.specs.Prelude.{◌≡◌, map, string_bytes, IfSome};
ghost use Rattle.std.specs.Option.{option_map};
ghost use Rattle.rl_text.specs.Number.{number_of};
ghost use Rattle.rl_program.specs.Command.{AskFits, asked, make_of, form_of, form_of_one as form_of_one_at, form_of_two as form_of_two_at, form_of_three as form_of_three_at};

use rl_inputs::Files;
use rl_ops::MOST_CALLS;
use rl_place::MOST_RANKS;
use rl_text::number;

/// The files that a run names, in the order in which they are read.
#[derive(Clone, Copy)]
pub struct RunFiles<'a> {
    pub place: &'a str,
    pub calls: &'a str,
}

/// The files that a check names, in the order in which they are read.
#[derive(Clone, Copy)]
pub struct CheckFiles<'a> {
    pub place: &'a str,
    pub calls: &'a str,
    pub report: &'a str,
}

/// What the words ask for.
#[derive(Clone, Copy)]
pub enum Form<'a> {
    /// The report of a replay.
    Replay(Files<'a>),
    /// The report of a run by threads.
    Run(RunFiles<'a>),
    /// Whether a report is legal.
    Check(CheckFiles<'a>),
    /// The summary of so many calls of so many ranks, made from a number.
    Make { number: u64, ranks: u32, calls: u32 },
    /// The shape of a placement.
    Show { place: &'a str },
}

/// What `make` asks for, where the three words are numbers in their ranges.
fn make_form<'a>(number_word: &str, ranks: &str, calls: &str) -> Option<Form<'a>>
    ensures made { option_map asked result ≡ make_of (number_of number_word.now) (number_of ranks.now) (number_of calls.now) }
    ensures fits { IfSome result (λ form. AskFits (asked form)) }
{
    let from = number(number_word.as_bytes())?;
    let ranks = number(ranks.as_bytes())?;
    let calls = number(calls.as_bytes())?;
    if ranks < 1 || ranks > u64::from(MOST_RANKS) || calls > u64::from(MOST_CALLS) {
        return None;
    }
    Some(Form::Make {
        number: from,
        ranks: ranks as u32,
        calls: calls as u32,
    })
}

/// What a verb and one word ask for.
fn form_of_one<'a>(verb: &str, word: &'a str) -> Option<Form<'a>>
    ensures asked { option_map asked result ≡ form_of_one_at verb.now word.now }
    ensures fits { IfSome result (λ form. AskFits (asked form)) }
{
    match verb {
        "show" => Some(Form::Show { place: word }),
        _ => None,
    }
}

/// What a verb and two words ask for.
fn form_of_two<'a>(verb: &str, first: &'a str, second: &'a str) -> Option<Form<'a>>
    ensures asked { option_map asked result ≡ form_of_two_at verb.now first.now second.now }
    ensures fits { IfSome result (λ form. AskFits (asked form)) }
{
    match verb {
        "run" => Some(Form::Run(RunFiles {
            place: first,
            calls: second,
        })),
        _ => None,
    }
}

/// What a verb and three words ask for.
fn form_of_three<'a>(
    verb: &str,
    first: &'a str,
    second: &'a str,
    third: &'a str,
) -> Option<Form<'a>>
    ensures asked { option_map asked result ≡ form_of_three_at verb.now first.now second.now third.now }
    ensures fits { IfSome result (λ form. AskFits (asked form)) }
{
    match verb {
        "replay" => Some(Form::Replay(Files {
            place: first,
            calls: second,
            schedule: third,
        })),
        "make" => make_form(first, second, third),
        "check" => Some(Form::Check(CheckFiles {
            place: first,
            calls: second,
            report: third,
        })),
        _ => None,
    }
}

/// What the words ask for: `show PLACE`, `run PLACE CALLS`, `replay PLACE CALLS SCHEDULE`, `make NUMBER RANKS CALLS`, where NUMBER is below
/// 2^64, RANKS 1 to 32 and CALLS at most 20,000, or `check PLACE CALLS REPORT`. Nothing where they are no form.
pub fn form_of_words(words: &[String]) -> Option<Form<'_>>
    ensures asked { option_map asked result ≡ form_of (map string_bytes words.now) }
    ensures fits { IfSome result (λ form. AskFits (asked form)) }
{
    match words {
        [verb, word] => form_of_one(verb.as_str(), word.as_str()),
        [verb, first, second] => form_of_two(verb.as_str(), first.as_str(), second.as_str()),
        [verb, first, second, third] => form_of_three(
            verb.as_str(),
            first.as_str(),
            second.as_str(),
            third.as_str(),
        ),
        _ => None,
    }
}
