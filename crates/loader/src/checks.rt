// What the nodes of a table are checked for before anything recurses over them: one whole tree, order of first use,
// depth, and the length of the text. No function here recurses: nodes that are not yet checked can nest as deep as there
// are nodes.
ghost use Rattle.std.specs.Prelude.{[], ◌≡◌, ◌<◌, ◌≤◌, true, length, reverse};
ghost use Rattle.model.specs.Limits.{node_limit, group_limit};
ghost use Rattle.names.specs.Names.{Each};
ghost use Rattle.table.specs.Inner.Tests.{fine, arity, whole, rooted, leaves_of, ordered, settle, nests, cost, total};
ghost use Rattle.draft.specs.Parts.{is_leaf};
ghost use Rattle.draft.specs.Drafts.{nodes_of, name_size};

use arrayvec::ArrayVec;
use draft::Draft;
use model::{Kind, Mark, Model, NameNumber, Node};

// ---- 13: one whole tree under a group
// May a node be so, where there are so many names?
fn is_fine(node: &Node, names: usize) -> bool
    ensures { result ≡ fine names node.now }
{
    match node.kind {
        Kind::Name => usize::from(node.value) < names,
        Kind::Sequence => 1 <= node.value,
        Kind::Choice => 2 <= node.value,
    }
}

// How many members a node has.
fn members(node: &Node) -> usize
    ensures arity { result ≡ arity node.now }
    ensures small { result < 65536 }
{
    match node.kind {
        Kind::Name => 0,
        Kind::Sequence | Kind::Choice => usize::from(node.value),
    }
}

/// Are these nodes one whole tree, with name numbers below `names`? A count of the members still wanted.
#[tactic(auto, using(table::proofs::Steps::whole_at, table::proofs::Steps::whole_more, table::proofs::Steps::whole_end))]
pub fn one_tree(nodes: &[Node], names: usize) -> bool
    requires { length nodes.now ≤ node_limit }
    ensures { result ≡ whole names 1 nodes.now }
{
    let mut want = 1;
    for node in nodes {
        if want == 0 || !is_fine(node, names) {
            return false;
        }
        want = want - 1 + members(node);
    }
    want == 0
}

/// Is the first node a group's?
pub fn has_root(nodes: &[Node]) -> bool
    ensures { result ≡ rooted nodes.now }
{
    match nodes.first() {
        None => false,
        Some(node) => node.kind != Kind::Name,
    }
}

// ---- 15: order of first use
/// Do the name numbers come in order of first use, so many of them?
#[tactic(auto, using(table::proofs::Steps::leaves_at, table::proofs::Steps::leaves_end, table::proofs::Steps::ordered_name, table::proofs::Steps::next_new, table::proofs::Steps::next_old), unfolding(table::specs::Inner::Tests::ordered))]
pub fn in_order(nodes: &[Node], names: usize) -> bool
    ensures { result ≡ ordered names 0 (leaves_of nodes.now) }
{
    // the next new number, not the next node's place
    let mut next = 0;
    for node in nodes {
        if node.kind == Kind::Name {
            let number = usize::from(node.value);
            if next < number {
                return false;
            }
            if next == number {
                next += 1;
            }
        }
    }
    next == names
}

// ---- 16: depth
// The members that each open group still wants, the innermost last.
type Open = ArrayVec<u16, { Model::GROUPS }>;

// Leaves the groups that are done; the innermost that is not wants one member less. No `for`: it stops at that one.
#[tactic(auto, using(table::proofs::Steps::reverse_more, table::proofs::Steps::settle_done, table::proofs::Steps::settle_more))]
fn settle(groups: &mut Open)
    requires { length groups.old.items ≤ group_limit }
    ensures { reverse groups.new.items ≡ settle (reverse groups.old.items) }
{
    while let Some(wanted) = groups.pop() {
        if 0 < wanted {
            groups.push(wanted - 1);
            return;
        }
    }
}

/// Are no more groups nested than may be, `Model::GROUPS`?
#[tactic(auto, using(table::proofs::Steps::reverse_more, table::proofs::Steps::reverse_length, table::proofs::Steps::nests_end, table::proofs::Steps::settle_le, table::proofs::Steps::nests_name, table::proofs::Steps::nests_group, table::proofs::Steps::nests_full))]
pub fn is_nested(nodes: &[Node]) -> bool
    ensures { result ≡ nests [] nodes.now }
{
    let mut groups = Open::new();
    for node in nodes {
        settle(&mut groups);
        if node.kind != Kind::Name && groups.try_push(node.value).is_err() {
            return false;
        }
    }
    true
}

// ---- 17: the length of the text
// The bytes that a node has of its own in the text.
fn cost_of(draft: &Draft<'_>, node: &Node) -> usize
    requires { is_leaf node.now ≡ true → node.now.value < length draft.now.names.items }
    ensures cost { result ≡ cost (name_size draft.now) node.now }
    ensures small { result ≤ 65537 }
{
    let own = match node.kind {
        Kind::Name => draft.name(NameNumber(usize::from(node.value))).len(),
        Kind::Sequence | Kind::Choice => usize::from(node.value) + 1,
    };
    own + usize::from(node.mark != Mark::Plain)
}

/// The length in bytes of the text that the draft's nodes and names are written as.
#[tactic(auto, using(table::proofs::Steps::total_at, table::proofs::Steps::total_end, table::proofs::Steps::leaves_at))]
pub fn text_length(draft: &Draft<'_>) -> usize
    requires { Each (λ v. v < length draft.now.names.items) (leaves_of (nodes_of draft.now)) }
    ensures { result ≡ total (name_size draft.now) (nodes_of draft.now) }
{
    let mut length = 0;
    for node in draft.nodes() {
        length += cost_of(draft, node);
    }
    length
}
