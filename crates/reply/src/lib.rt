// What an answer stands for, in code: the number and the value of "Numbers a call may answer". All of it is inner (decision 4 of
// docs/DECISIONS.md), and takes any answer.
//     refusal_number           the number of a refusal
//     number_of, value_of      the number and the value of an answer
#![tactic(auto)]

ghost use Rattle.std.specs.Prelude.{◌≡◌};
ghost use Rattle.rules.specs.Reply.{refusal_number, number, value};

use rules::{Answer, Refusal};

#[tactic(auto, unfolding(rules::specs::Reply::refusal_number))]
pub fn refusal_number(why: Refusal) -> u16
    ensures { result ≡ refusal_number why }
{
    // The number is the discriminant, of which no `From` is made.
    why as u16
}

#[tactic(auto, unfolding(rules::specs::Reply::number))]
pub fn number_of(answer: Answer) -> u16
    ensures { result ≡ number answer }
{
    match answer {
        Answer::Refused(why) => refusal_number(why),
        _ => 0,
    }
}

#[tactic(auto, unfolding(rules::specs::Reply::value))]
pub fn value_of(answer: Answer) -> u16
    ensures { result ≡ value answer }
{
    match answer {
        Answer::Made(a)
        | Answer::Moved(a)
        | Answer::Loaded(a)
        | Answer::Stored(a)
        | Answer::Freed(a) => a.0,
        _ => 0,
    }
}
