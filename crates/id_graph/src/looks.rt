//! What an instruction is named and how it looks in a picture (docs/GRAPH.md, "Picture").

ghost use Rattle.std.specs.Prelude.{◌≡◌, ◌≤◌, drop, length, take_while};
ghost use Rattle.std.specs.List.{prefix_len};
ghost use Rattle.id_text.specs.Bytes.{is_name_byte};
ghost use Rattle.id_graph.specs.Looks.{behind_next, computes, is_merge, is_point, kind_look, look, name_at, name_text};

use id_instr::{Instr, Op, PortKind};

/// The word at this place of the text, or behind `next` and a space there.
pub fn name_at(text: &str, at: usize) -> &str
    requires { at ≤ length text.now }
    ensures { result.now ≡ name_at text.now at }
{
    word(behind_next(&text.as_bytes()[at..]))
}

/// What is left behind `next` and a space, where they stand at the front.
fn behind_next(rest: &[u8]) -> &[u8]
    ensures { result.now ≡ behind_next rest.now }
{
    if rest.starts_with(b"next ") {
        &rest[5..]
    } else {
        rest
    }
}

/// The bytes at the front that go on a name.
fn word(bytes: &[u8]) -> &str
    ensures { result.now ≡ take_while is_name_byte bytes.now }
{
    let name = &bytes[..name_len(bytes)];
    unsafe { str::from_utf8_unchecked(name) }
}

/// How many bytes at the front go on a name.
fn name_len(bytes: &[u8]) -> usize
    ensures { result ≡ prefix_len is_name_byte bytes.now }
{
    bytes.iter().take_while(|b| is_name_byte(**b)).count()
}

/// Whether the byte goes on a name.
fn is_name_byte(b: u8) -> bool
    ensures { result ≡ is_name_byte b }
{
    b.is_ascii_alphabetic() || b == b'_' || b.is_ascii_digit()
}

/// The name of an instruction, or nothing.
pub fn name_text<'a>(text: &'a str, instr: &Instr) -> &'a str
    requires { instr.now.place ≤ length text.now }
    ensures { result.now ≡ name_text text.now instr.now }
{
    if computes(instr.op) {
        ""
    } else {
        name_at(text, instr.place)
    }
}

/// Whether the operator computes a value of its own.
fn computes(op: Op) -> bool
    ensures { result ≡ computes op }
{
    matches!(op, Op::Const(_) | Op::Unary(_) | Op::Binary(_))
}

/// How an instruction and what it sends are drawn.
pub fn look(op: Op) -> &'static str
    ensures { result.now ≡ look op }
{
    match op {
        Op::Merge(kind) | Op::Switch(kind) | Op::Back(kind) | Op::Next(kind) | Op::Reset(kind) => {
            kind_look(kind)
        }
        Op::Send { kind, .. } => kind_look(kind),
        Op::Alloc { nested } => kind_look(PortKind::of_structure(nested)),
        Op::Address { nested } | Op::Fetch { nested, .. } | Op::Store { nested } => {
            kind_look(PortKind::of_address(nested))
        }
        Op::Const(_) | Op::Unary(_) | Op::Binary(_) | Op::Enter { .. } => "",
    }
}

/// How what carries values of this kind is drawn.
fn kind_look(kind: PortKind) -> &'static str
    ensures { result.now ≡ kind_look kind }
{
    match kind {
        PortKind::Signal => ", color=gray60, fontcolor=gray40",
        PortKind::Structure | PortKind::Structures => ", penwidth=2",
        PortKind::Address | PortKind::Addresses => ", penwidth=2",
        PortKind::Int | PortKind::Bool | PortKind::Context | PortKind::Continuation => "",
    }
}

/// Whether an instruction is drawn as a point: a merge with one destination.
pub fn is_point(instr: &Instr) -> bool
    ensures { result ≡ is_point instr.now }
{
    is_merge(instr.op) && instr.dests.as_slice().len() == 1
}

/// Whether the operator is a merge.
fn is_merge(op: Op) -> bool
    ensures { result ≡ is_merge op }
{
    matches!(op, Op::Merge(_))
}
