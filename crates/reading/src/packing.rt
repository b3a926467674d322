// The table of a draft, packed: its fields, put at a bit cursor one behind another.
ghost use Rattle.std.specs.Prelude.{[], ◌∷◌};
ghost use Rattle.table.specs.Encoding.{node_fields, name_fields};
ghost use Rattle.reading.specs.Inner.Packed.{IsPackable, IsPacked};
ghost use Rattle.reading.specs.Inner.Packing.{Fits, Put};

use draft::Draft;
use fields::Bits;
use model::{NameNumber, Node};

/// Puts the kind, the mark and the value of a node at the cursor, and gives the cursor behind them.
fn put_node(table: &mut [u8], cursor: Bits, node: Node) -> Bits
    requires { Fits table.old cursor.at (node_fields node.kind node.mark node.value) }
    ensures { Put table.old cursor.at (node_fields node.kind node.mark node.value) result.at table.new }
{
    let second = cursor.put(table, 2, u16::from(node.kind));
    let third = second.put(table, 2, u16::from(node.mark));
    third.put(table, 12, node.value)
}

/// Puts the length and the bytes of a name at the cursor, and gives the cursor behind them.
fn put_name(table: &mut [u8], cursor: Bits, name: &[u8]) -> Bits
    requires { Fits table.old cursor.at (name_fields (name.now ∷ [])) }
    ensures { Put table.old cursor.at (name_fields (name.now ∷ [])) result.at table.new }
{
    let mut next = cursor.put(table, 8, name.len() as u16);
    for &byte in name {
        next = next.put(table, 8, u16::from(byte));
    }
    next
}

/// Packs the lawful model that a draft holds into `table`, which has room for the longest, and gives the table's
/// length in bytes. The bytes past it stay.
pub fn pack(draft: &Draft, table: &mut [u8]) -> usize
    requires { IsPackable draft.now table.old }
    ensures answer { IsPacked draft.now table.old result table.new }
{
    let counts = draft.counts();
    let start = Bits { at: 0 };
    let second = start.put(table, 16, counts.nodes as u16);
    let mut next = second.put(table, 16, counts.names as u16);
    for &node in draft.nodes() {
        next = put_node(table, next, node);
    }
    for n in 0..counts.names {
        next = put_name(table, next, draft.name(NameNumber(n)));
    }
    next.at / 8
}
