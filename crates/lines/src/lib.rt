// The lines that list a table.
#![tactic(auto, using(text::proofs::PutLaws::writing), unfolding(crate::specs::Line::grid_text, crate::specs::Line::counts_text, crate::specs::Line::profile_text, crate::specs::Line::head_line, crate::specs::Line::node_text, crate::specs::Line::place_text, crate::specs::Line::packet_text, crate::specs::Line::slot_line, crate::specs::Line::last_line))]

ghost use Rattle.std.specs.Prelude.{◌≡◌, ◌∷◌, [], ◌++◌, ◌-◌, ◌≤◌, ◌<◌};
ghost use Rattle.board.specs.Layout.{layout_of};
ghost use Rattle.table.specs.Held.{held_below};
ghost use Rattle.text.specs.Put.{Takes, added};
ghost use Rattle.lines.specs.Line.{grid_text, counts_text, profile_text, head_line, letter, node_text, place_text, packet_text, slot_line, last_line};
ghost use Rattle.lines.specs.Lines.{top_of, row_of, row_at, rows_in, rows_text, table_text};

use board::Board;
use network::{Kind, Place};
use table::packets::Fields;
use text::Text;
use trailer::{Head, Table};

// Room for the longest text, 226,637 bytes: a slot's line has at most 59, the head line 67, the last line 10.
pub const ROOM: usize = 3840 * 59 + 67 + 10;

fn put_grid(text: &mut Text, t: &Table)
    requires { Takes text.old (grid_text t.now.head.board) }
    ensures { text.new ≡ added text.old (grid_text t.now.head.board) }
{
    let board = t.head.board;
    text.word_decimal(b"grid ", board.width as u32);
    text.word_decimal(b" ", board.height as u32);
    text.word_decimal(b" depth ", board.depth as u32);
}

fn put_counts(text: &mut Text, h: Head)
    requires { Takes text.old (counts_text h.taken h.delivered) }
    ensures { text.new ≡ added text.old (counts_text h.taken h.delivered) }
{
    text.word_decimal(b" taken ", h.taken);
    text.word_decimal(b" delivered ", h.delivered);
}

// The profile of which a head line says nothing.
const UNSAID: usize = 0;

fn put_profile(text: &mut Text, t: &Table)
    requires { Takes text.old (profile_text t.now.head.board.profile) }
    ensures { text.new ≡ added text.old (profile_text t.now.head.board.profile) }
{
    let profile = t.head.board.profile;
    if profile != UNSAID {
        text.word_decimal(b" profile ", profile as u32);
    }
}

fn put_head(text: &mut Text, t: &Table)
    requires { Takes text.old (head_line (top_of t.now.head)) }
    ensures { text.new ≡ added text.old (head_line (top_of t.now.head)) }
{
    put_grid(text, t);
    put_counts(text, t.head);
    put_profile(text, t);
    text.byte(b'\n');
}

// No `From` of the kind's own: its letter is a word of the listing alone.
fn letter_of(kind: Kind) -> u8
    ensures { result ∷ [] ≡ letter kind }
{
    match kind {
        Kind::Waiting => b'W',
        Kind::A => b'A',
        Kind::B => b'B',
    }
}

// A text and a board go side by side below: a struct of the two would be made once, and taken apart in each function.
fn put_node(text: &mut Text, board: Board, n: u8)
    requires { Takes text.old (node_text board n) }
    ensures { text.new ≡ added text.old (node_text board n) }
{
    let c = board::coordinates_of(board, n);
    text.decimal(u32::from(c.x));
    text.byte(b',');
    text.decimal(u32::from(c.y));
}

// A word, and a node after it.
fn put_word_node(text: &mut Text, word: &[u8], board: Board, n: u8)
    requires { Takes text.old (word.now ++ node_text board n) }
    ensures { text.new ≡ added text.old (word.now ++ node_text board n) }
{
    text.bytes(word);
    put_node(text, board, n);
}

fn put_place(text: &mut Text, board: Board, slot: u32, here: Place)
    requires { Takes text.old (place_text board slot here) }
    ensures { text.new ≡ added text.old (place_text board slot here) }
{
    text.decimal(slot);
    text.byte(b' ');
    text.byte(letter_of(here.kind));
    put_word_node(text, b" ", board, here.node);
}

fn put_packet(text: &mut Text, board: Board, f: Fields)
    requires { Takes text.old (packet_text board f.source f.destination f.hops f.serial) }
    ensures { text.new ≡ added text.old (packet_text board f.source f.destination f.hops f.serial) }
{
    put_word_node(text, b" from ", board, f.source);
    put_word_node(text, b" to ", board, f.destination);
    text.word_decimal(b" hops ", u32::from(f.hops));
    text.word_decimal(b" serial ", f.serial);
}

fn put_slot_line(text: &mut Text, board: Board, slot: u32, here: Place, f: Fields)
    requires { Takes text.old (slot_line board (row_of slot here f)) }
    ensures { text.new ≡ added text.old (slot_line board (row_of slot here f)) }
{
    put_place(text, board, slot, here);
    put_packet(text, board, f);
    text.byte(b'\n');
}

// The line of slot `k`, or nothing where it is empty.
#[tactic(auto, using(text::proofs::PutLaws::writing, crate::proofs::RowLaws::row_empty, crate::proofs::RowLaws::row_held, board::proofs::BoardLaws::slots_most))]
fn put_row(text: &mut Text, t: &Table, k: usize)
    requires k_bound { k < (layout_of t.now.head.board).size }
    requires takes { Takes text.old (rows_text t.now.head.board (row_at t.now.head.board t.now.bytes.now k)) }
    ensures { text.new ≡ added text.old (rows_text t.now.head.board (row_at t.now.head.board t.now.bytes.now k)) }
{
    if slots::slot_empty(t.bytes, k) {
        return;
    }
    let board = t.head.board;
    let here = board::layout::place_of(board, k);
    let f = table::packets::read_fields(t.bytes, k);
    put_slot_line(text, board, k as u32, here, f);
}

#[tactic(auto, using(text::proofs::PutLaws::writing, crate::proofs::RowLaws::no_rows, crate::proofs::RowLaws::rows_more, crate::proofs::RowLaws::row_within))]
fn put_rows(text: &mut Text, t: &Table)
    requires { Takes text.old (rows_text t.now.head.board (rows_in t.now.head.board t.now.bytes.now (layout_of t.now.head.board).size)) }
    ensures { text.new ≡ added text.old (rows_text t.now.head.board (rows_in t.now.head.board t.now.bytes.now (layout_of t.now.head.board).size)) }
{
    for k in 0..board::layout::slots_of(t.head.board) {
        put_row(text, t, k);
    }
}

fn put_last(text: &mut Text, held: u32)
    requires { Takes text.old (last_line held) }
    ensures { text.new ≡ added text.old (last_line held) }
{
    text.word_decimal(b"held ", held);
    text.byte(b'\n');
}

// All lines of a table that holds as many packets as are taken in and not delivered.
#[tactic(auto, using(text::proofs::PutLaws::writing, crate::proofs::RowLaws::counted_is))]
pub fn put_table(text: &mut Text, t: &Table)
    requires delivered_value { t.now.head.taken - t.now.head.delivered ≡ held_below t.now.bytes.now (layout_of t.now.head.board).size }
    requires takes { Takes text.old (table_text t.now.head t.now.bytes.now) }
    ensures { text.new ≡ added text.old (table_text t.now.head t.now.bytes.now) }
{
    put_head(text, t);
    put_rows(text, t);
    put_last(text, t.head.taken.saturating_sub(t.head.delivered));
}
