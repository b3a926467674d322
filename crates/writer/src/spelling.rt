// The text of a draft, spelled out: names, marks and brackets, and what joins the members of a group.
ghost use Rattle.std.specs.Prelude.{[], ◌∷◌, ◌≡◌, ◌+◌, ◌≤◌, ◌<◌, length};
ghost use Rattle.meaning.specs.Trees.{nodes};
ghost use Rattle.grammar.specs.Written.{sign};
ghost use Rattle.writer.specs.Inner.Spelled.{IsSpellable, IsSpelled};
ghost use Rattle.writer.specs.Inner.Writing.{IsReady, Adds, joint, part, text_of};

use draft::Draft;
use model::{Kind, Mark, NameNumber};

/// A text that is written from its start on.
#[derive(Drop)]
struct Out<'a> {
    text: &'a mut [u8],
    at: usize,
}

impl<'a> Out<'a> {
    fn push(&mut self, byte: u8)
        requires { self.old.at < length self.old.text.now }
        ensures { Adds self.old self.new (byte ∷ []) }
    {
        self.text[self.at] = byte;
        self.at += 1;
    }

    fn push_all(&mut self, bytes: &[u8])
        requires { self.old.at + length bytes.now ≤ length self.old.text.now }
        ensures { Adds self.old self.new bytes.now }
    {
        let mut at = self.at;
        for &byte in bytes {
            self.text[at] = byte;
            at += 1;
        }
        self.at = at;
    }

    fn push_mark(&mut self, mark: Mark)
        requires { self.old.at + length (sign mark) ≤ length self.old.text.now }
        ensures { Adds self.old self.new (sign mark) }
    {
        match mark {
            Mark::Plain => {}
            Mark::Optional => self.push(b'?'),
            Mark::Star => self.push(b'*'),
            Mark::Plus => self.push(b'+'),
        }
    }
}

/// What joins the members of a group.
fn joint_of(kind: Kind) -> Option<u8>
    ensures { result ≡ joint kind }
{
    match kind {
        Kind::Name => None,
        Kind::Sequence => Some(b','),
        Kind::Choice => Some(b'|'),
    }
}

/// Writes the part at node i, by recursion over its members, and gives the node behind it.
fn spell_node(draft: &Draft, i: usize, out: &mut Out) -> usize
    requires { IsReady draft.now i out.old }
    ensures next { result ≡ i + nodes (part draft.now i) }
    ensures text { Adds out.old out.new (text_of draft.now (part draft.now i)) }
{
    let node = draft.nodes()[i];
    let mut next = i + 1;
    match joint_of(node.kind) {
        None => out.push_all(draft.name(NameNumber(usize::from(node.value)))),
        Some(joint) => {
            let mut lead = b'(';
            for _ in 0..node.value {
                out.push(lead);
                next = spell_node(draft, next, out);
                lead = joint;
            }
            out.push(b')');
        }
    }
    out.push_mark(node.mark);
    next
}

/// Writes the text of the model that a draft holds, where there is room for it, and gives its length in bytes. The
/// bytes past it stay.
pub fn spell(draft: &Draft, text: &mut [u8]) -> usize
    requires { IsSpellable draft.now text.old }
    ensures answer { IsSpelled draft.now text.old result text.new }
{
    let mut out = Out { text, at: 0 };
    spell_node(draft, 0, &mut out);
    out.at
}
