ghost use Rattle.std.specs.Prelude.{◌≡◌, ◌≤◌, ℕ, List, [], ◌∷◌, map, codes, IfSome, IfNone, string_bytes};
ghost use Rattle.tdm_cli.specs.Words.{AskRounds, AskSizes, IsNumber, IsNoRoute, IsNoGen, IsCommand, RequestIs};

use tdm_lines::decimal;
use tdm_problem::{MAX_FPGAS, MAX_GROUPS, MAX_NETS};

/// How many rounds `route` does where the words name no number, and how many `demo` does.
pub const DEFAULT_ROUNDS: u32 = 20;

/// The most rounds that the words may ask for.
const MAX_ROUNDS: u32 = 1000;

/// What the words of a command line ask for. A name is a file's, and not empty.
#[derive(Clone, Copy, Debug)]
pub enum Command<'a> {
    /// Route the board of one file by so many rounds, and write the solution and the certificate to two
    /// others.
    Route {
        board: &'a str,
        solution: &'a str,
        cert: &'a str,
        rounds: u32,
    },
    /// Judge the solution of one file for the board of the other.
    Eval {
        board: &'a str,
        solution: &'a str,
    },
    /// Check the certificate of one file for the board of the other.
    Check {
        board: &'a str,
        cert: &'a str,
    },
    /// Write the board of these numbers to a file.
    Gen {
        fpgas: u32,
        nets: u32,
        groups: u32,
        board: &'a str,
    },
    /// Route the board of these numbers, and write the solution and the certificate to two files.
    Demo {
        fpgas: u32,
        nets: u32,
        groups: u32,
        solution: &'a str,
        cert: &'a str,
    },
}

/// The command that the words are, without the program's own name, and none where they are no command.
pub fn parse(words: &[String]) -> Option<Command<'_>>
    ensures found { IfSome result (RequestIs (map string_bytes words.now)) }
    ensures none { IfNone result (¬ IsCommand (map string_bytes words.now)) }
{
    match words {
        [verb, board, solution, cert] => parse_route(
            verb.as_str(),
            board.as_str(),
            solution.as_str(),
            cert.as_str(),
            DEFAULT_ROUNDS,
        ),
        [verb, first, second, third, fourth] => parse_five(
            verb.as_str(),
            first.as_str(),
            second.as_str(),
            third.as_str(),
            fourth.as_str(),
        ),
        [verb, fpgas, nets, groups, solution, cert] => parse_demo(
            verb.as_str(),
            fpgas.as_str(),
            nets.as_str(),
            groups.as_str(),
            solution.as_str(),
            cert.as_str(),
        ),
        [verb, first, second] => parse_two(verb.as_str(), first.as_str(), second.as_str()),
        _ => None,
    }
}

/// The command `route` with a number of rounds, if the words are that.
fn parse_rounds<'a>(
    verb: &str,
    board: &'a str,
    solution: &'a str,
    cert: &'a str,
    rounds: &str,
) -> Option<Command<'a>>
    ensures found { IfSome result
        (RequestIs (verb.now ∷ board.now ∷ solution.now ∷ cert.now ∷ rounds.now ∷ [])) }
    ensures none { IfNone result
        (IsNoRoute (verb.now ∷ board.now ∷ solution.now ∷ cert.now ∷ rounds.now ∷ [])) }
{
    match number(rounds, MAX_ROUNDS) {
        Some(rounds) => parse_route(verb, board, solution, cert, rounds),
        None => None,
    }
}

/// The number that a word is, in digits without leading zeros, if it is one of at most `most`.
fn number(word: &str, most: u32) -> Option<u32>
    ensures found { IfSome result (IsNumber most word.now) }
    ensures none { IfNone result ((n : ℕ) → ¬ IsNumber most word.now n) }
{
    let Ok(number) = word.parse::<u32>() else {
        return None;
    };
    if number > most {
        return None;
    }
    if decimal(u128::from(number)).as_bytes() != word.as_bytes() {
        return None;
    }
    Some(number)
}

/// The command `route` with so many rounds, if the verb is that and the names are those of an input and of
/// two outputs.
fn parse_route<'a>(
    verb: &str,
    board: &'a str,
    solution: &'a str,
    cert: &'a str,
    rounds: u32,
) -> Option<Command<'a>>
    ensures found { IfSome result (λ command. (further : List (List ℕ)) → AskRounds further rounds
        → RequestIs (verb.now ∷ board.now ∷ solution.now ∷ cert.now ∷ further) command) }
    ensures none { IfNone result ((further : List (List ℕ))
        → IsNoRoute (verb.now ∷ board.now ∷ solution.now ∷ cert.now ∷ further)) }
{
    if verb != "route" || board.is_empty() || solution.is_empty() || cert.is_empty() {
        return None;
    }
    if solution == cert {
        return None;
    }
    Some(Command::Route {
        board,
        solution,
        cert,
        rounds,
    })
}

/// How large a board is to be.
#[derive(Clone, Copy)]
struct Sizes {
    fpgas: u32,
    nets: u32,
    groups: u32,
}

/// The numbers of FPGAs, nets and groups that three words are, if they are those of a board that can be
/// generated.
fn parse_sizes(fpgas: &str, nets: &str, groups: &str) -> Option<Sizes>
    ensures found { IfSome result
        (λ sizes. AskSizes fpgas.now nets.now groups.now sizes.fpgas sizes.nets sizes.groups) }
    ensures none { IfNone result ((f n g : ℕ) → ¬ AskSizes fpgas.now nets.now groups.now f n g) }
{
    let Some(fpgas) = number(fpgas, MAX_FPGAS) else {
        return None;
    };
    let Some(nets) = number(nets, MAX_NETS) else {
        return None;
    };
    let Some(groups) = number(groups, MAX_GROUPS) else {
        return None;
    };
    if fpgas < 2 || nets < 1 {
        return None;
    }
    Some(Sizes {
        fpgas,
        nets,
        groups,
    })
}

/// The command `gen`, if these words behind it are its numbers and the name of an output.
fn parse_gen<'a>(fpgas: &str, nets: &str, groups: &str, board: &'a str) -> Option<Command<'a>>
    ensures found { IfSome result
        (RequestIs (codes "gen" ∷ fpgas.now ∷ nets.now ∷ groups.now ∷ board.now ∷ [])) }
    ensures none { IfNone result
        (IsNoGen (codes "gen" ∷ fpgas.now ∷ nets.now ∷ groups.now ∷ board.now ∷ [])) }
{
    let Some(sizes) = parse_sizes(fpgas, nets, groups) else {
        return None;
    };
    if board.is_empty() {
        return None;
    }
    Some(Command::Gen {
        fpgas: sizes.fpgas,
        nets: sizes.nets,
        groups: sizes.groups,
        board,
    })
}

/// The command of five words, `gen` or `route` with a number of rounds, if they are one.
fn parse_five<'a>(
    verb: &str,
    first: &'a str,
    second: &'a str,
    third: &'a str,
    fourth: &'a str,
) -> Option<Command<'a>>
    ensures found { IfSome result
        (RequestIs (verb.now ∷ first.now ∷ second.now ∷ third.now ∷ fourth.now ∷ [])) }
    ensures none { IfNone result
        (¬ IsCommand (verb.now ∷ first.now ∷ second.now ∷ third.now ∷ fourth.now ∷ [])) }
{
    if verb == "gen" {
        return parse_gen(first, second, third, fourth);
    }
    parse_rounds(verb, first, second, third, fourth)
}

/// The command `demo`, if the verb is that and the words behind it are its numbers and the names of two
/// outputs.
fn parse_demo<'a>(
    verb: &str,
    fpgas: &str,
    nets: &str,
    groups: &str,
    solution: &'a str,
    cert: &'a str,
) -> Option<Command<'a>>
    ensures found { IfSome result
        (RequestIs (verb.now ∷ fpgas.now ∷ nets.now ∷ groups.now ∷ solution.now ∷ cert.now ∷ [])) }
    ensures none { IfNone result
        (¬ IsCommand (verb.now ∷ fpgas.now ∷ nets.now ∷ groups.now ∷ solution.now ∷ cert.now ∷ [])) }
{
    if verb != "demo" || solution.is_empty() || cert.is_empty() {
        return None;
    }
    if solution == cert {
        return None;
    }
    let Some(sizes) = parse_sizes(fpgas, nets, groups) else {
        return None;
    };
    Some(Command::Demo {
        fpgas: sizes.fpgas,
        nets: sizes.nets,
        groups: sizes.groups,
        solution,
        cert,
    })
}

/// The command with two names that has this verb, if there is one and the names are a file's.
fn parse_two<'a>(verb: &str, first: &'a str, second: &'a str) -> Option<Command<'a>>
    ensures found { IfSome result (RequestIs (verb.now ∷ first.now ∷ second.now ∷ [])) }
    ensures none { IfNone result (¬ IsCommand (verb.now ∷ first.now ∷ second.now ∷ [])) }
{
    if first.is_empty() || second.is_empty() {
        return None;
    }
    match verb {
        "eval" => Some(Command::Eval {
            board: first,
            solution: second,
        }),
        "check" => Some(Command::Check {
            board: first,
            cert: second,
        }),
        _ => None,
    }
}
