//! What the program `slots` prints, as bytes.
#![tactic(auto)]

ghost use Rattle.std.specs.Prelude.{[], ◌++◌, ◌≡◌, ◌+◌, ◌*◌, ◌≤◌, length, IfSome, IfErr, OnOk, OnErr};
ghost use Rattle.std.specs.Option.{option_copied};
ghost use Rattle.model.specs.Limits.{name_limit};
ghost use Rattle.meaning.specs.Trees.{Tree};
ghost use Rattle.names.specs.Bytes.{Bytes};
ghost use Rattle.matching.specs.Passed.{Passed};
ghost use Rattle.report.specs.LineEnd.{LineEnd};
ghost use Rattle.report.specs.Lines.{line};
ghost use Rattle.report.specs.Prints.{Adds, TextRefused, PrintsChildren, PrintsModel, Prints, model_text, child_text};

use arrayvec::ArrayVec;
use itoa::Buffer;
use matching::Matched;
use model::{Model, Refusal};
use verdict::Verdict;

/// All that is printed: one to three short lines, each with its line feed.
pub type Page = ArrayVec<u8, 512>;

/// Puts bytes behind those that are on the page, where there is room for them.
fn put(page: &mut Page, bytes: &[u8])
    requires { length page.old.items + length bytes.now ≤ 512 }
    ensures { page.new.items ≡ page.old.items ++ bytes.now }
{
    let _fits = page.try_extend_from_slice(bytes);
}

/// Puts a line: a word, numbers in decimal and a name, with a space before each.
fn put_line(page: &mut Page, word: &[u8], numbers: &[usize], name: Option<&[u8]>)
    requires room { length page.old.items + length word.now + 21 * length numbers.now + 66 ≤ 512 }
    requires short { IfSome name (λ bytes. length bytes.now ≤ name_limit) }
    ensures line { page.new.items ≡ page.old.items ++ line word.now numbers.now (option_copied name.entry) }
    ensures within { length page.new.items ≤ length page.old.items + length word.now + 21 * length numbers.now + 66 }
{
    put(page, word);
    for n in numbers {
        put(page, b" ");
        put(page, Buffer::new().format(*n).as_bytes());
    }
    if let Some(name) = name {
        put(page, b" ");
        put(page, name);
    }
    put(page, b"\n");
}

/// Puts what the children of a model that is passed come to.
fn put_children(page: &mut Page, table: &[u8], children: &[u8])
    requires passed { (t : Tree Bytes) × Passed table.now t }
    requires room { length page.old.items ≤ 300 }
    ensures { (t : Tree Bytes) → Passed table.now t → Adds (PrintsChildren t children.now) page.old.items page.new.items }
{
    let mut slots = [0; Model::SLOT_ROOM];
    match matching::match_children(table, children, &mut slots) {
        Ok(Matched::Allowed(n)) => put_line(page, b"allowed", &[n], None),
        Ok(Matched::Stopped(k, held)) => {
            let name = matching::name_part(table, children);
            put_line(page, b"stopped", &[k, held.0], Some(name));
        }
        Ok(Matched::Short(n, held)) => put_line(page, b"short", &[n, held.0], None),
        Err(f) => put_line(page, b"children refused", &[f.number(), f.place()], None),
    }
}

/// Puts the lines on a text that is a model, or says why it is none.
fn put_model(page: &mut Page, text: &[u8], children: &[u8]) -> Result<(), Refusal>
    requires { page.old.items ≡ [] }
    ensures ok { OnOk result (PrintsModel text.now children.now page.new.items) }
    ensures refused { IfErr result (TextRefused text.now) }
    ensures unchanged { OnErr result (page.new.items ≡ []) }
{
    let mut table = [0; Model::TABLE_ROOM];
    let n = reading::read(text, &mut table)?;
    let table = &table[..n];
    let c = writer::count(table)?;
    let verdict = verdict::judge(table)?;
    put_line(page, b"model", &[c.nodes, c.slots, c.names], None);
    match verdict {
        Verdict::Deterministic => {
            put_line(page, b"deterministic", &[], None);
            put_children(page, table, children);
        }
        Verdict::Ambiguous(clash) => {
            let name = naming::slot_name(table, clash.x);
            put_line(
                page,
                b"ambiguous",
                &[clash.p.0, clash.x.0, clash.y.0],
                Some(name),
            );
        }
    }
    Ok(())
}

/// Where the first line feed stands; the length where there is none.
pub fn line_end(text: &[u8]) -> usize
    ensures answer { LineEnd text.now result }
{
    text.iter().position(|b| *b == b'\n').unwrap_or(text.len())
}

/// The model text up to the first line feed, and the child text behind it.
fn split_line(input: &[u8]) -> (&[u8], &[u8])
    ensures model { result.0.now ≡ model_text input.now }
    ensures children { result.1.now ≡ child_text input.now }
{
    let end = line_end(input);
    let next = (end + 1).min(input.len());
    (&input[..end], &input[next..])
}

/// All that the program prints on an input, the model up to the first line feed and then child text. What is refused
/// is a line of the page too.
pub fn report(input: &[u8]) -> Page
    ensures answer { Prints (model_text input.now) (child_text input.now) result.items }
{
    let (text, children) = split_line(input);
    let mut page = Page::new();
    if let Err(f) = put_model(&mut page, text, children) {
        put_line(&mut page, b"refused", &[f.number(), f.place()], None);
    }
    page
}
