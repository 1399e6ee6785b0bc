//! The parts of lines, each put in front of what follows it.

ghost use Rattle.std.specs.Prelude.{◌≡◌, ◌+◌, ◌*◌, ◌≤◌, ◌++◌, ◌∷◌, length};
ghost use Rattle.std.specs.List.{flat_map};
ghost use Rattle.asm_text.specs.Hex.{hex};
ghost use Rattle.certificate.specs.Walk.{step_of, to_of};
ghost use Rattle.certificate.specs.Words.{edge_words, instance_words, label_words, list_words, place_words};
ghost use Rattle.certificate.specs.Words.{step_words, to_words};

use crate::line_end::{LINE_ROOM, LineEnd};
use control_flow::{Calls, Edge, Label, Place};
use longest_walk::{InstanceRow, PlaceRow};

impl LineEnd {
    // Adds a label between two blanks.
    fn put_label(&mut self, label: Label)
        requires { 6 + length self.old ≤ LINE_ROOM }
        ensures text { self.new ≡ 32 ∷ (label_words label ++ 32 ∷ self.old) }
        ensures len { length self.new ≤ 6 + length self.old }
    {
        match label {
            Label::Skip => self.put(b" skip "),
            Label::Do => self.put(b" do "),
        }
    }

    fn put_to(&mut self, to: &Place)
        requires { 9 + length self.old ≤ LINE_ROOM }
        ensures text { self.new ≡ to_words (to_of to.now) ++ self.old }
        ensures len { length self.new ≤ 9 + length self.old }
    {
        match to {
            Place::At(_, address) => self.put_hex(*address),
            Place::Exit => self.put(b"exit"),
        }
    }

    /// Adds an edge by its address, label, target and cost.
    pub(crate) fn put_edge(&mut self, edge: &Edge)
        requires { 45 + length self.old ≤ LINE_ROOM }
        ensures text { self.new ≡ edge_words (step_of edge.now) ++ self.old }
        ensures len { length self.new ≤ 45 + length self.old }
    {
        self.put_decimal(u64::from(edge.cost));
        self.put(b" ");
        self.put_to(&edge.to);
        self.put_label(edge.label);
        self.put_hex(edge.from.address());
    }

    /// Adds an edge as a line of a walk shows it.
    pub(crate) fn put_step(&mut self, edge: &Edge)
        requires { 50 + length self.old ≤ LINE_ROOM }
        ensures text { self.new ≡ step_words (step_of edge.now) ++ self.old }
        ensures len { length self.new ≤ 50 + length self.old }
    {
        self.put_edge(edge);
        self.put(b"step ");
    }

    // Adds the addresses of calls, each after a slash.
    fn put_inner(&mut self, calls: &[u32])
        requires { 10 * length calls.now + length self.old ≤ LINE_ROOM }
        ensures text { self.new ≡ flat_map (λ c. 47 ∷ hex c) calls.now ++ self.old }
        ensures len { length self.new ≤ 10 * length calls.now + length self.old }
    {
        let [first, rest @ ..] = calls else {
            return;
        };
        self.put_inner(rest);
        self.put_hex(*first);
        self.put(b"/");
    }

    fn put_calls(&mut self, calls: &Calls)
        requires { 79 + length self.old ≤ LINE_ROOM }
        ensures text { self.new ≡ list_words calls.now ++ self.old }
        ensures len { length self.new ≤ 79 + length self.old }
    {
        let [first, rest @ ..] = calls.items() else {
            self.put(b"-");
            return;
        };
        self.put_inner(rest);
        self.put_hex(*first);
    }

    /// Adds a place with its distance.
    pub(crate) fn put_place(&mut self, row: &PlaceRow)
        requires { 116 + length self.old ≤ LINE_ROOM }
        ensures { self.new ≡ place_words row.now ++ self.old }
    {
        self.put_decimal(row.distance);
        self.put(b" ");
        self.put_hex(row.address);
        self.put(b" ");
        self.put_calls(&row.list);
        self.put(b"place ");
    }

    /// Adds an instance with its arrival and its round.
    pub(crate) fn put_instance(&mut self, row: &InstanceRow)
        requires { 140 + length self.old ≤ LINE_ROOM }
        ensures { self.new ≡ instance_words row.now ++ self.old }
    {
        self.put_decimal(row.round);
        self.put(b" ");
        self.put_decimal(row.arrival);
        self.put(b" ");
        self.put_hex(row.header);
        self.put(b" ");
        self.put_calls(&row.list);
        self.put(b"instance ");
    }
}
