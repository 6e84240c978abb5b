//! A run of nodes in the same states.

ghost use Rattle.std.specs.Prelude.{◌≡◌, ◌+◌, ◌<◌, ◌≤◌, ◌^◌, true};
ghost use Rattle.walker_record.specs.Stretches.{Stretch, node_on, is_node_on, HasNumbers, is_continued, joined_of, first_part, second_part};

use ew_model::node::Node;
use ew_model::run::Run;
use std::marker::Model;

/// `len` nodes that follow one another from `from` on, which is a base character or an event's; their numbers are below
/// 2^32. All have the prepared number `prepared` (0 not inserted yet, 1 inserted, n + 1 deleted n times), and are in the
/// text or not.
#[derive(Clone, Copy, Debug, PartialEq, Eq)]
pub struct Record {
    pub from: Node,
    pub len: u32,
    pub prepared: u32,
    pub effect: bool,
}

impl Model for Record {
    ghost use Rattle.walker_record.specs.Stretches.{Stretch, HasNumbers};

    ghost Value = { Stretch };

    ghost view = { λ r. record { from = r.from; len = r.len; prepared = r.prepared; effect = r.effect } };

    ghost invariant = { λ r. HasNumbers r.from r.len };

    ghost inverse = { λ s. record { from = s.from; len = s.len; prepared = s.prepared; effect = s.effect } };
}

impl Record {
    /// The first `at` characters, and the others.
    pub fn split(&self, at: u32) -> (Record, Record)
        requires some { 0 < at }
        requires rest { at < self.now.len }
        ensures first { result.0 ≡ first_part self.now at }
        ensures second { result.1 ≡ second_part self.now at }
        ensures fits { is_continued result.0 result.1 ≡ true }
        ensures back { joined_of result.0 result.1 ≡ self.now }
    {
        let first = Record { len: at, ..*self };
        let second = Record {
            from: node_on(self.from, at),
            len: self.len - at,
            ..*self
        };
        (first, second)
    }

    /// Whether the next record is of the nodes that follow, in the same states.
    pub fn joinable(&self, next: &Record) -> bool
        ensures { result ≡ is_continued self.now next.now }
    {
        self.prepared == next.prepared
            && self.effect == next.effect
            && is_node_on(self.from, self.len, next.from)
    }

    /// The record of both.
    pub fn join(&self, next: &Record) -> Record
        requires joinable { is_continued self.now next.now ≡ true }
        requires short { self.now.len + next.now.len < 2 ^ 32 }
        ensures { result ≡ joined_of self.now next.now }
    {
        Record {
            len: self.len + next.len,
            ..*self
        }
    }
}

impl Run for Record {
    ghost use Rattle.walker_record.specs.Stretches.{chars_of, known_of, prepared_of, effect_of, is_continued, joined_of};
    ghost use Rattle.walker_record.specs.StretchLaws.{known_counted, prepared_counted, effect_counted, known_all_or_none, prepared_all_or_none, effect_all_or_none, joined_chars_of, joined_known_of, joined_prepared_of, joined_effect_of};

    ghost chars = { chars_of };

    ghost known = { known_of };

    ghost prepared = { prepared_of };

    ghost effect = { effect_of };

    ghost fits = { is_continued };

    ghost joined = { joined_of };

    ghost known_counts = { known_counted };

    ghost prepared_counts = { prepared_counted };

    ghost effect_counts = { effect_counted };

    ghost known_alike = { known_all_or_none };

    ghost prepared_alike = { prepared_all_or_none };

    ghost effect_alike = { effect_all_or_none };

    ghost joined_chars = { joined_chars_of };

    ghost joined_known = { joined_known_of };

    ghost joined_prepared = { joined_prepared_of };

    ghost joined_effect = { joined_effect_of };

    fn size(&self) -> u32 {
        self.len
    }

    fn known_sum(&self) -> u32 {
        if self.prepared > 0 { self.len } else { 0 }
    }

    fn prepared_sum(&self) -> u32 {
        if self.prepared == 1 { self.len } else { 0 }
    }

    fn effect_sum(&self) -> u32 {
        if self.effect { self.len } else { 0 }
    }

    fn split(&self, at: u32) -> (Record, Record) {
        Record::split(self, at)
    }

    fn joinable(&self, next: &Record) -> bool {
        Record::joinable(self, next)
    }

    fn join(&self, next: &Record) -> Record {
        Record::join(self, next)
    }
}

/// The node `n` places on.
fn node_on(node: Node, n: u32) -> Node
    requires { HasNumbers node (n + 1) }
    ensures { result ≡ node_on node n }
{
    match node {
        Node::Root => Node::Root,
        Node::Base(i) => Node::Base(i + n),
        Node::Event(i) => Node::Event(i + n),
    }
}

/// Whether the other node is the one `n` places on.
fn is_node_on(node: Node, n: u32, other: Node) -> bool
    ensures { result ≡ is_node_on node n other }
{
    match (node, other) {
        (Node::Base(i), Node::Base(j)) | (Node::Event(i), Node::Event(j)) => {
            u64::from(j) == u64::from(i) + u64::from(n)
        }
        _ => false,
    }
}
