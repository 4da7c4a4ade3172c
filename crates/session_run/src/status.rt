//! The exit status of a session.
ghost use Rattle.std.specs.Prelude.{◌≡◌};
ghost use Rattle.std.specs.List.{list_any};
ghost use Rattle.session_run.specs.Status.{is_device, is_refusal, is_wanting, status_of_lines};

use line_answers::Answer;
use line_table::Answers;

/// The exit status of a session whose lines have these answers: 2 where memory was wanting, else 6 where a line answered that a disk
/// failed, else 5 where one was refused, else 0.
pub fn status_of_lines(answers: &Answers) -> u8
    ensures { result ≡ status_of_lines answers.now.items }
{
    if any_wanting(answers) {
        2
    } else if any_device(answers) {
        6
    } else if any_refusal(answers) {
        5
    } else {
        0
    }
}

// Whether memory was wanting for a line.
fn any_wanting(answers: &Answers) -> bool
    ensures { result ≡ list_any (λ line. is_wanting line.1) answers.now.items }
{
    answers.iter().any(|line| is_wanting(&line.1))
}

// Whether a disk failed.
fn any_device(answers: &Answers) -> bool
    ensures { result ≡ list_any (λ line. is_device line.1) answers.now.items }
{
    answers.iter().any(|line| is_device(&line.1))
}

// Whether a line was refused.
fn any_refusal(answers: &Answers) -> bool
    ensures { result ≡ list_any (λ line. is_refusal line.1) answers.now.items }
{
    answers.iter().any(|line| is_refusal(&line.1))
}

fn is_wanting(answer: &Option<Answer>) -> bool
    ensures { result ≡ is_wanting answer.now }
{
    matches!(answer, Some(Answer::NoMemory))
}

fn is_device(answer: &Option<Answer>) -> bool
    ensures { result ≡ is_device answer.now }
{
    matches!(
        answer,
        Some(Answer::ReadFailed(_) | Answer::PvFailed(_) | Answer::Fenced(_) | Answer::Stopped(_))
    )
}

fn is_refusal(answer: &Option<Answer>) -> bool
    ensures { result ≡ is_refusal answer.now }
{
    matches!(answer, Some(Answer::Refused(_)))
}
