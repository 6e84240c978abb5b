//! Rows of long lines of calls: some calls, made in turn, so many times.

ghost use Rattle.std.specs.Prelude.{◌≡◌, OnOk};
ghost use Rattle.walk_trials.specs.Calls.{IsInLine};

use crate::calls::Calls;
use crate::line_calls::{advance, delete, insert, retreat};
use crate::series::{Answer, Series};
use advance_retreat::State;
use ew_model::NoMem;
use ew_model::id::Id;
use ew_model::name::Name;
use ew_model::steps::Steps;
use std::alloc::Global;
use std::sync::ledger::Ledger;
use trial_rows::fault::Fault;
use trial_rows::report::Report;
use trial_rows::show;
use trial_rows::words::{character, first_word, number};

/// A number that rises or falls by one each time, or stays.
#[derive(Clone, Copy)]
struct Moving {
    first: u32,
    way: Way,
}

#[derive(Clone, Copy)]
enum Way {
    Up,
    Down,
    Nowhere,
}

impl Moving {
    /// `5+`, `5-` or `5`.
    fn read(word: &str) -> Result<Moving, Fault> {
        let (digits, way) = if let Some(digits) = word.strip_suffix('+') {
            (digits, Way::Up)
        } else if let Some(digits) = word.strip_suffix('-') {
            (digits, Way::Down)
        } else {
            (word, Way::Nowhere)
        };
        Ok(Moving {
            first: number(digits)?,
            way,
        })
    }

    /// The number at a time.
    fn at(&self, time: u32) -> u32 {
        match self.way {
            Way::Up => self.first.saturating_add(time),
            Way::Down => self.first.saturating_sub(time),
            Way::Nowhere => self.first,
        }
    }
}

/// A call that is made again and again.
#[derive(Clone, Copy)]
enum Call {
    Insert {
        agent: Name,
        seq: Moving,
        at: Moving,
        ch: char,
    },
    Delete {
        at: Moving,
    },
    Advance,
    Retreat,
}

fn read_call(words: &str) -> Result<Call, Fault> {
    let (verb, rest) = first_word(words);
    match verb {
        "insert" => read_insertion(rest),
        "delete" => Ok(Call::Delete {
            at: Moving::read(rest)?,
        }),
        "advance" => Ok(Call::Advance),
        "retreat" => Ok(Call::Retreat),
        _ => Err(Fault::Unreadable),
    }
}

fn read_insertion(words: &str) -> Result<Call, Fault> {
    let (id, rest) = first_word(words);
    let (agent, seq) = id.split_once(':').ok_or(Fault::Unreadable)?;
    let (at, ch) = first_word(rest);
    Ok(Call::Insert {
        agent: Name::read(agent.as_bytes())?,
        seq: Moving::read(seq)?,
        at: Moving::read(at)?,
        ch: character(ch)?,
    })
}

/// A call, and what it answered so far.
#[derive(Drop)]
struct Asked {
    call: Call,
    answers: Series,
}

/// A state over a base of so many characters.
pub fn run<'a, L: Ledger>(
    alloc: Global,
    base: &str,
    rows: &'a str,
    report: &mut Report<'a>,
    steps: &mut Steps<L>,
) -> Result<(), Fault> {
    let mut state = State::base(alloc, number(base)?)?;
    let mut calls = Calls::new(alloc);
    for row in rows.split('\n') {
        let asked = report.ask(row)?;
        let answer = answer(alloc, &mut state, &mut calls, asked, steps)?;
        report.compare(answer.as_str())?;
    }
    Ok(())
}

fn answer<L: Ledger>(
    alloc: Global,
    state: &mut State,
    calls: &mut Calls,
    asked: &str,
    steps: &mut Steps<L>,
) -> Result<String, Fault>
    requires { IsInLine state.old calls.old }
    ensures { OnOk result (IsInLine state.new calls.new) }
{
    let (verb, rest) = first_word(asked);
    match verb {
        "lengths" => Ok(lengths(alloc, state)?),
        "runs" => Ok(runs(alloc, state)?),
        "base" => base(alloc, number(rest)?),
        _ => make_all(alloc, state, calls, asked, steps),
    }
}

/// Whether there may be a base of so many characters.
fn base(alloc: Global, len: u32) -> Result<String, Fault> {
    Ok(show::yes_or_no(alloc, State::base(alloc, len).is_ok())?)
}

/// How long the prepared text is, and the text of all.
fn lengths(alloc: Global, state: &State) -> Result<String, NoMem> {
    let (prepared, effect) = (state.prepared_len(), state.effect_len());
    format!(in alloc; "{prepared} {effect}")
}

/// How many runs are kept, and how many applies were refused.
fn runs(alloc: Global, state: &State) -> Result<String, NoMem> {
    let (runs, lost) = (state.runs(), state.lost());
    format!(in alloc; "{runs} {lost}")
}

/// Makes the calls in turn, once or as often as the first word says.
fn make_all<L: Ledger>(
    alloc: Global,
    state: &mut State,
    calls: &mut Calls,
    words: &str,
    steps: &mut Steps<L>,
) -> Result<String, Fault>
    requires { IsInLine state.old calls.old }
    ensures { OnOk result (IsInLine state.new calls.new) }
{
    let (times, rest) = words.split_once(" times ").unwrap_or(("1", words));
    let mut asked = read_calls(alloc, rest)?;
    for time in 0..number(times)? {
        make_each(state, calls, &mut asked, time, steps)?;
    }
    Ok(tell_all(alloc, asked.as_slice())?)
}

fn read_calls(alloc: Global, words: &str) -> Result<Vec<Asked>, Fault> {
    let mut asked = Vec::new(alloc);
    for words in words.split("; ") {
        let call = read_call(words)?;
        let answers = Series::new(alloc);
        asked.push(Asked { call, answers })?;
    }
    Ok(asked)
}

/// Makes each of the calls once.
fn make_each<L: Ledger>(
    state: &mut State,
    calls: &mut Calls,
    asked: &mut Vec<Asked>,
    time: u32,
    steps: &mut Steps<L>,
) -> Result<(), Fault>
    requires { IsInLine state.old calls.old }
    ensures { OnOk result (IsInLine state.new calls.new) }
{
    for one in asked.iter_mut() {
        let answer = make(state, calls, &one.call, time, steps)?;
        one.answers.add(answer)?;
    }
    Ok(())
}

fn make<L: Ledger>(
    state: &mut State,
    calls: &mut Calls,
    call: &Call,
    time: u32,
    steps: &mut Steps<L>,
) -> Result<Answer, Fault>
    requires { IsInLine state.old calls.old }
    ensures { OnOk result (IsInLine state.new calls.new) }
{
    match *call {
        Call::Insert { agent, seq, at, ch } => {
            let seq = seq.at(time);
            insert(state, calls, Id { agent, seq }, at.at(time), ch, steps)
        }
        Call::Delete { at } => delete(state, calls, at.at(time), steps),
        Call::Advance => advance(state, calls, steps),
        Call::Retreat => retreat(state, calls, steps),
    }
}

/// What the calls answered, each behind the one before.
fn tell_all(alloc: Global, asked: &[Asked]) -> Result<String, NoMem> {
    let mut told = String::new(alloc);
    for one in asked {
        if !told.is_empty() {
            told.push_str("; ")?;
        }
        one.answers.tell(&mut told)?;
    }
    Ok(told)
}
