//! Counted order trees that are filled: characters that are typed in some order, full leaves that are cut, and calls that are drawn.

use crate::order::{Order, States};
use ew_model::NoMem;
use ew_model::steps::Steps;
use std::alloc::Global;
use std::sync::ledger::Ledger;
use trial_rows::draws::Draws;
use trial_rows::fault::Fault;
use trial_rows::words::{first_word, number};

/// How many runs a leaf holds.
const FULL: u32 = 16;

/// How many it keeps when it is cut in two.
const HALF: u32 = 8;

/// Behind which place the next character is typed, where there are so many: behind the one before, behind the first, before all,
/// behind and before the one before in turn, or anywhere.
fn place_for(way: &str, count: u32, newest: usize, draws: &mut Draws) -> usize {
    match way {
        "behind" => newest,
        "first" => newest.min(1),
        "turns" if count % 2 == 0 => newest,
        "turns" => newest.saturating_sub(1),
        "drawn" => draws.below(count.saturating_add(1)) as usize,
        _ => 0,
    }
}

/// Types so many characters into a tree of no runs: `WAY COUNT`. Answers the numbers of runs at which the tree grew by a level, how
/// many runs are in their places, and the same after new labels were given, with the first and the last of these.
pub fn type_all<L: Ledger>(
    alloc: Global,
    rest: &str,
    steps: &mut Steps<L>,
) -> Result<String, Fault> {
    let (way, count) = first_word(rest);
    let mut order = Order::new(alloc)?;
    let mut draws = Draws::new(1);
    let mut levels = Vec::new(alloc);
    let mut newest = 0;
    for k in 0..number(count)? {
        let depth = order.tree().depth();
        let place = place_for(way, k, newest, &mut draws);
        newest = put(&mut order, place, 1, steps)?;
        if order.tree().depth() > depth {
            levels.push(k.saturating_add(1))?;
        }
    }
    let sound = order.count_sound(steps);
    let labels = tell_new_labels(alloc, &mut order, steps)?;
    Ok(format!(in alloc;
        "levels from {:?}, sound {sound}; {labels}",
        levels.as_slice()
    )?)
}

/// Puts a run of so many visible characters behind a place. Answers its place.
fn put<L: Ledger>(
    order: &mut Order,
    place: usize,
    len: u32,
    steps: &mut Steps<L>,
) -> Result<usize, Fault> {
    let own = order.put(place, len, States::VISIBLE, steps)?;
    own.ok_or(Fault::Unreadable)
}

/// Gives new labels. Answers the first and the last, how many are so many steps from 0 as there are runs up to them, and how many
/// runs are in their places then.
fn tell_new_labels<L: Ledger>(
    alloc: Global,
    order: &mut Order,
    steps: &mut Steps<L>,
) -> Result<String, NoMem> {
    order.relabel(steps)?;
    let (first, last) = (order.label_at(1), order.label_at(order.labels().len()));
    let (even, sound) = (count_even(order.labels(), first), order.count_sound(steps));
    format!(in alloc; "labels {first} to {last}, even {even}, sound {sound}")
}

fn count_even(labels: &[u64], step: u64) -> u32 {
    let mut even: u32 = 0;
    let mut wanted: u64 = 0;
    for label in labels {
        wanted = wanted.wrapping_add(step);
        if *label == wanted {
            even = even.saturating_add(1);
        }
    }
    even
}

/// What came of cuts: the levels before, in how many trees there was a level more, and in how many all runs were in their places.
#[derive(Clone, Copy)]
struct Cuts {
    before: u32,
    deeper: u32,
    sound: u32,
}

/// For each run of a tree of so many full leaves: fills a tree, and cuts that run. Answers the number of runs, the levels, and in how
/// many of the trees there is a level more, and all runs are in their places.
pub fn cut_full_leaves<L: Ledger>(
    alloc: Global,
    leaves: u32,
    steps: &mut Steps<L>,
) -> Result<String, Fault> {
    let runs = leaves.saturating_mul(FULL);
    let mut cuts = Cuts {
        before: 0,
        deeper: 0,
        sound: 0,
    };
    for k in 0..runs {
        let mut order = filled(alloc, leaves, steps)?;
        cut(&mut order, k as usize + 1, &mut cuts, steps)?;
    }
    let (before, deeper, sound) = (cuts.before, cuts.deeper, cuts.sound);
    Ok(format!(in alloc; "{runs} runs in {before} levels, a level more {deeper}, sound {sound}")?)
}

/// Cuts the run at a place in the middle of its two characters.
fn cut<L: Ledger>(
    order: &mut Order,
    place: usize,
    cuts: &mut Cuts,
    steps: &mut Steps<L>,
) -> Result<(), Fault> {
    cuts.before = order.tree().depth();
    let own = order.split(place, 1, steps)?;
    if order.tree().depth() == cuts.before.saturating_add(1) {
        cuts.deeper = cuts.deeper.saturating_add(1);
    }
    if own.is_some() && order.count_sound(steps) as usize == order.labels().len() {
        cuts.sound = cuts.sound.saturating_add(1);
    }
    Ok(())
}

/// A tree of so many full leaves of runs of two characters: first one run behind the other, which leaves a half of them in each leaf
/// but the last, and then as many again into each of these.
fn filled<L: Ledger>(alloc: Global, leaves: u32, steps: &mut Steps<L>) -> Result<Order, Fault> {
    let mut order = Order::new(alloc)?;
    let others = leaves.saturating_sub(1);
    for place in 0..others.saturating_mul(HALF).saturating_add(FULL) {
        put(&mut order, place as usize, 2, steps)?;
    }
    for leaf in 0..others {
        let middle = leaf.saturating_mul(FULL).saturating_add(HALF / 2);
        for _ in 0..HALF {
            put(&mut order, middle as usize, 2, steps)?;
        }
    }
    Ok(order)
}

/// The numbers of all answers in turn, made one.
#[derive(Clone, Copy)]
struct Answers {
    number: u64,
}

impl Answers {
    fn take(&mut self, number: u64) {
        self.number = self.number.wrapping_mul(1_000_003).wrapping_add(number);
    }

    /// A character by the place of its run and its number there.
    fn take_character(&mut self, found: Option<(usize, u32)>) {
        let (place, number) = found.unwrap_or((0, 0));
        self.take(place as u64);
        self.take(number.into());
    }
}

/// Makes so many calls that are drawn from a seed on a tree of no runs. Answers a number made of all answers, how many runs there are,
/// how many characters are prepared and in the text, and how many runs are in their places.
pub fn make_drawn<L: Ledger>(
    alloc: Global,
    count: u32,
    seed: u32,
    steps: &mut Steps<L>,
) -> Result<String, Fault> {
    let mut order = Order::new(alloc)?;
    let mut draws = Draws::new(seed.into());
    let mut answers = Answers { number: 0 };
    for _ in 0..count {
        make_one(&mut order, &mut draws, &mut answers, steps)?;
    }
    let (number, runs) = (answers.number, order.labels().len());
    let (prepared, effect) = (order.prepared(), order.effect());
    let sound = order.count_sound(steps);
    Ok(format!(in alloc;
        "answers {number}, {runs} runs, prepared {prepared} text {effect}, sound {sound}"
    )?)
}

/// Of ten calls four put a run in, one cuts one, two change one, and three ask.
fn make_one<L: Ledger>(
    order: &mut Order,
    draws: &mut Draws,
    answers: &mut Answers,
    steps: &mut Steps<L>,
) -> Result<(), Fault> {
    match draws.below(10) {
        0..=3 => put_drawn(order, draws, steps),
        4 => cut_drawn(order, draws, answers, steps),
        5..=6 => {
            let place = draws.below_count(order.labels().len()).saturating_add(1);
            let states = draw_states(draws);
            order.change(place, states, steps);
            Ok(())
        }
        7 => {
            let i = draws.below(order.prepared());
            answers.take_character(order.find_prepared(i, steps));
            Ok(())
        }
        8 => {
            let i = draws.below(order.effect());
            answers.take_character(order.find_effect(i, steps));
            Ok(())
        }
        _ => {
            let place = draws.below_count(order.labels().len()).saturating_add(1);
            let label = order.label_at(place);
            answers.take(order.tree().effect_before(label, steps).into());
            Ok(())
        }
    }
}

fn draw_states(draws: &mut Draws) -> States {
    States {
        prepared: draws.below(3),
        effect: draws.below(3) > 0,
    }
}

/// Puts a run in. Where no label is free for it, new ones are given first.
fn put_drawn<L: Ledger>(
    order: &mut Order,
    draws: &mut Draws,
    steps: &mut Steps<L>,
) -> Result<(), Fault> {
    let place = draws.below_count(order.labels().len().saturating_add(1));
    let len = draws.below(5).saturating_add(1);
    let states = draw_states(draws);
    if order.put(place, len, states, steps)?.is_none() {
        order.relabel(steps)?;
        order.put(place, len, states, steps)?;
    }
    Ok(())
}

/// Cuts a run of more than one character; its length is an answer. Where no label is free, new ones are given first.
fn cut_drawn<L: Ledger>(
    order: &mut Order,
    draws: &mut Draws,
    answers: &mut Answers,
    steps: &mut Steps<L>,
) -> Result<(), Fault> {
    let place = draws.below_count(order.labels().len()).saturating_add(1);
    let len = match order.run(order.label_at(place), steps) {
        Some(run) => run.len,
        None => 0,
    };
    answers.take(len.into());
    if len < 2 {
        return Ok(());
    }
    let at = draws.below(len - 1).saturating_add(1);
    if order.split(place, at, steps)?.is_none() {
        order.relabel(steps)?;
        order.split(place, at, steps)?;
    }
    Ok(())
}
