//! The survey of a model's nodes: whether the empty list is allowed, which slots can stand first and last, and which can follow.
#![tactic(auto)]

ghost use Rattle.std.specs.Prelude.{◌≡◌, ℕ};
ghost use Rattle.meaning.specs.Trees.{Tree};
ghost use Rattle.survey.specs.Inner.Fours.{mark4, add4};
ghost use Rattle.survey.specs.Inner.Finding.{is_sequence, said, Tells, Stands, Found, Surveyed};

use model::{Kind, Mark, Node, Slot};
use slotset::{Follow, SlotSet};

/// What is found of a node, or of some members of a group.
// nobody prints or compares it
#[derive(Clone, Copy)]
pub struct Survey {
    /// The place of the node behind it.
    pub next: usize,
    /// The first slot behind it.
    pub slot: Slot,
    /// Whether the empty list is allowed.
    pub empty: bool,
    /// The slots that some allowed list begins with.
    pub first: SlotSet,
    /// The slots that some allowed list ends with.
    pub last: SlotSet,
}

impl Survey {
    /// Surveys a whole model, by its nodes in preorder: whether the empty list is allowed, first, last, and in `follow`,
    /// whatever was in it, exactly what can follow.
    pub fn of(nodes: &[Node], follow: &mut Follow) -> Survey
        requires { (t : Tree ℕ) × Stands t nodes.now 0 1 }
        ensures { (t : Tree ℕ) → Stands t nodes.now 0 1 → Surveyed t result follow.new }
    {
        *follow = Follow::empty();
        survey_node(nodes, 0, Slot(1), follow)
    }

    // With a mark: what may come again follows itself.
    fn marked(self, mark: Mark, follow: &mut Follow) -> Survey
        ensures { Tells result follow.new self.next self.slot.0
            (λ p y. mark4 mark (said self follow.old p y)) }
    {
        if mark.repeats() {
            follow.link(self.last, self.first);
        }
        Survey {
            empty: mark.skips() || self.empty,
            ..self
        }
    }

    // The members so far and the next one, in a group of this kind.
    fn joined(self, kind: Kind, next: Survey, follow: &mut Follow) -> Survey
        ensures { Tells result follow.new next.next next.slot.0
            (λ p y. add4 (is_sequence kind) (said self follow.old p y) (said next follow.old p y)) }
    {
        if kind == Kind::Sequence {
            follow.link(self.last, next.first);
            return Survey {
                empty: self.empty && next.empty,
                first: if self.empty {
                    self.first | next.first
                } else {
                    self.first
                },
                last: if next.empty {
                    next.last | self.last
                } else {
                    next.last
                },
                ..next
            };
        }
        Survey {
            empty: self.empty || next.empty,
            first: self.first | next.first,
            last: self.last | next.last,
            ..next
        }
    }
}

/// Surveys the node at `at`, whose first slot is `slot`, with its members, and adds to `follow` what can follow in it.
pub fn survey_node(nodes: &[Node], at: usize, slot: Slot, follow: &mut Follow) -> Survey
    requires { (t : Tree ℕ) × Stands t nodes.now at slot.0 }
    ensures { (t : Tree ℕ) → Stands t nodes.now at slot.0 → Found t at slot.0 follow.old result follow.new }
{
    let node = nodes[at];
    if node.kind == Kind::Name {
        let one = SlotSet::one(slot);
        let name = Survey {
            next: at + 1,
            slot: Slot(slot.0 + 1),
            empty: false,
            first: one,
            last: one,
        };
        return name.marked(node.mark, follow);
    }
    let mut group = Survey {
        next: at + 1,
        slot,
        empty: node.kind == Kind::Sequence,
        first: SlotSet::empty(),
        last: SlotSet::empty(),
    };
    for _k in 0..node.value {
        let member = survey_node(nodes, group.next, group.slot, follow);
        group = group.joined(node.kind, member, follow);
    }
    group.marked(node.mark, follow)
}
