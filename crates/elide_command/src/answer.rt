//! What a command that was not refused came to, and its exit status.
//!
//! A call for each kind of end makes an [`Answer`] of it, and drops the device that comes back. A run that is too long
//! for its page leaves the status as it is: `dispatch` tells it behind the answer.

ghost use Rattle.std.specs.Prelude.{◌≡◌, ◌≤◌};
ghost use Rattle.elide_command.specs.Answers.{IsAnswered, answer_status, is_unpaged, ran_answer, replayed_answer};
ghost use Rattle.elide_command.specs.Answers.{searched_answer, sought_answer};

use elide_hunt::Answer as Hunted;
use elide_outcomes::Answer as Searched;
use elide_replay::Agreement;
use elide_run::Ending;
use elide_setup::{Paged, Refusal};

/// What a command that was not refused came to.
#[derive(Clone, Copy)]
pub enum Answer {
    /// It did what it was asked.
    Done,
    /// A history that was run again ended otherwise.
    Differs,
    /// A run failed what was asked of it, or a search was cut.
    Fails,
    /// It did what it was asked, but for the page of a run that is too long for one.
    DoneUnpaged,
    /// A run failed what was asked of it, or a search was cut, and a run is too long for its page.
    FailsUnpaged,
}

impl Answer {
    /// The exit status.
    pub fn status(self) -> u8
        ensures exact { result ≡ answer_status self }
        ensures most { result ≤ 3 }
    {
        match self {
            Answer::Done | Answer::DoneUnpaged => 0,
            Answer::Differs => 1,
            Answer::Fails | Answer::FailsUnpaged => 3,
        }
    }

    /// Whether a page that was asked for was not written, since its run is too long.
    pub fn is_unpaged(self) -> bool
        ensures { result ≡ is_unpaged self }
    {
        matches!(self, Answer::DoneUnpaged | Answer::FailsUnpaged)
    }
}

/// What a command came to that can only do what it is asked, or be refused, whatever it gives back.
pub fn done<T: Drop>(end: Result<T, Refusal>) -> Result<Answer, Refusal>
    ensures { IsAnswered (λ _. Answer.Done) end result }
{
    end?;
    Ok(Answer::Done)
}

/// What a run came to, which gives its device back: one that goes on at its limit, where its end was asked for, fails.
pub fn ran<O: Drop>(end: Result<(Ending, O), Refusal>) -> Result<Answer, Refusal>
    ensures { IsAnswered (λ ran. ran_answer ran.0) end result }
{
    match end? {
        (Ending::AsAsked, _) => Ok(Answer::Done),
        (Ending::RunsOn, _) => Ok(Answer::Fails),
    }
}

/// What a search for a failing run came to, which gives its device back.
pub fn sought<O: Drop>(end: Result<(Hunted, Paged, O), Refusal>) -> Result<Answer, Refusal>
    ensures { IsAnswered (λ sought. sought_answer sought.0 sought.1) end result }
{
    match end? {
        (Hunted::NoneFailed, Paged::AsAsked, _) => Ok(Answer::Done),
        (Hunted::NoneFailed, Paged::TooLong, _) => Ok(Answer::DoneUnpaged),
        (Hunted::Failed, Paged::AsAsked, _) => Ok(Answer::Fails),
        (Hunted::Failed, Paged::TooLong, _) => Ok(Answer::FailsUnpaged),
    }
}

/// What a search over all schedules came to, which gives its device back.
pub fn searched<O: Drop>(end: Result<(Searched, Paged, O), Refusal>) -> Result<Answer, Refusal>
    ensures { IsAnswered (λ searched. searched_answer searched.0 searched.1) end result }
{
    match end? {
        (Searched::Whole, Paged::AsAsked, _) => Ok(Answer::Done),
        (Searched::Whole, Paged::TooLong, _) => Ok(Answer::DoneUnpaged),
        (Searched::Cut | Searched::Faulty, Paged::AsAsked, _) => Ok(Answer::Fails),
        (Searched::Cut | Searched::Faulty, Paged::TooLong, _) => Ok(Answer::FailsUnpaged),
    }
}

/// What a second run of a history came to, which gives its device back.
pub fn replayed<O: Drop>(end: Result<(Agreement, O), Refusal>) -> Result<Answer, Refusal>
    ensures { IsAnswered (λ replayed. replayed_answer replayed.0) end result }
{
    match end? {
        (Agreement::Agrees, _) => Ok(Answer::Done),
        (Agreement::Differs, _) => Ok(Answer::Differs),
    }
}
