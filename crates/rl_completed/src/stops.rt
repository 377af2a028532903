//! Where a schedule stops a rank.
ghost use Rattle.std.specs.Prelude.{◌≡◌, position, None};
ghost use Rattle.std.specs.List.{AllByRecursion};
ghost use Rattle.rl_completed.specs.Completing.{is_stop, line_of_stop, MakesSteps};

use rl_ops::Turn;

/// Whether a turn stops its rank.
fn is_stop(turn: &Turn) -> bool
    ensures { result ≡ is_stop turn.now }
{
    match turn {
        Turn::Steps { .. } => false,
        Turn::Stop { .. } => true,
    }
}

/// How many turns stand before the first that stops its rank.
fn turns_before_stop(turns: &[Turn]) -> Option<usize>
    ensures { result ≡ position is_stop turns.now }
{
    turns.iter().position(|turn| is_stop(turn))
}

/// The line of a schedule file of these turns in which a rank is stopped for the first time. The first turn stands in line 2.
pub fn first_stop(turns: &[Turn]) -> Option<u64>
    ensures first { result ≡ line_of_stop turns.now }
    ensures none { result ≡ None → AllByRecursion MakesSteps turns.now }
{
    match turns_before_stop(turns) {
        Some(before) => Some(before as u64 + 2),
        None => None,
    }
}
