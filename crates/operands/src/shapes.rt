// One operand (specs/Operands.antt): a function for each state of the walk (specs/Reading.antt) that the code passes.
ghost use Rattle.std.specs.Prelude.{◌≡◌};
ghost use Rattle.tokens.specs.Marks.{mark_of};
ghost use Rattle.tokens.specs.Reading.{token_at};
ghost use Rattle.operands.specs.Reading.{Shape, hash, put, done};
ghost use Rattle.operands.specs.declared.Written.{Written};
ghost use Rattle.values.specs.declared.Value.{Value};
ghost use Rattle.operands.specs.Reading as W;
ghost use Rattle.operands.specs.Inner.Peeks.{register_of, behind_mark, Goes};

use super::Written;
use codes::registers::{IX, IY, REGISTER_COUNT, SP};
use names::lookup::register_code;
use numerals::{Cursor, Read};
use tokens::Kind;
use tokens::marks::mark_at;
use tokens::tokens::next_token;
use values::Value;
use values::reading::value;

// The register that a word names.
fn register_at(s: &[u8], from: Cursor) -> Option<Read<u16>>
    ensures { result ≡ register_of s.now (token_at s.now from.at) }
{
    let t = next_token(s, from);
    let Kind::Word = t.kind else {
        return None;
    };
    let code = register_code(s, t.start, t.next.at);
    if code < REGISTER_COUNT {
        Some(Read {
            value: code,
            next: t.next,
        })
    } else {
        None
    }
}

// The cursor behind this mark, where it stands.
fn behind(s: &[u8], mark: u8, from: Cursor) -> Option<Cursor>
    ensures { result ≡ behind_mark mark (mark_of (token_at s.now from.at)) }
{
    let stands = mark_at(s, from)?;
    if stands.value == mark {
        Some(stands.next)
    } else {
        None
    }
}

// After `/` or `$`: a value alone, and the operand that is made of it.
fn value_alone<F: FnOnce(Value) -> Written>(
    s: &[u8],
    from: Cursor,
    made: F,
) -> Option<Read<Written>>
    requires { F.IsAlwaysCallable made }
    ensures { (k : Shape) → ((v : Value) (o : Written) → F.post made v o → put k v ≡ done o) → Goes s.now (W.value k) from.at result }
{
    let Read { value: v, next } = value(s, from)?;
    Some(Read {
        value: made(v),
        next,
    })
}

// After `.`.
fn register(s: &[u8], from: Cursor) -> Option<Read<Written>>
    ensures { Goes s.now W.register_name from.at result }
{
    let Read { value: code, next } = register_at(s, from)?;
    Some(Read {
        value: Written::Register(code),
        next,
    })
}

// `]` after an operand that it ends.
fn closed(s: &[u8], o: Written, from: Cursor) -> Option<Read<Written>>
    ensures { Goes s.now (W.closing o) from.at result }
{
    let next = behind(s, b']', from)?;
    Some(Read { value: o, next })
}

// After `[.`.
fn indirect_name(s: &[u8], from: Cursor) -> Option<Read<Written>>
    ensures { Goes s.now W.indirect_name from.at result }
{
    let Read { value: code, next } = register_at(s, from)?;
    closed(s, Written::Indirect(code), next)
}

// After `[`.
fn indirect(s: &[u8], from: Cursor) -> Option<Read<Written>>
    ensures { Goes s.now W.indirect_dot from.at result }
{
    indirect_name(s, behind(s, b'.', from)?)
}

// After `#v[.`: IX, IY or SP.
fn index_name(s: &[u8], v: Value, from: Cursor) -> Option<Read<Written>>
    ensures { Goes s.now (W.index_name v) from.at result }
{
    let Read { value: code, next } = register_at(s, from)?;
    match code as usize {
        IX => closed(s, Written::IndexedX(v), next),
        IY => closed(s, Written::IndexedY(v), next),
        SP => closed(s, Written::IndexedSp(v), next),
        _ => None,
    }
}

// After `#v[`.
fn index(s: &[u8], v: Value, from: Cursor) -> Option<Read<Written>>
    ensures { Goes s.now (W.index_dot v) from.at result }
{
    index_name(s, v, behind(s, b'.', from)?)
}

// After `#v`: an index, or no more.
fn after_hash(s: &[u8], v: Value, from: Cursor) -> Option<Read<Written>>
    ensures { Goes s.now (W.after_hash v) from.at result }
{
    match behind(s, b'[', from) {
        Some(next) => index(s, v, next),
        None => Some(Read {
            value: Written::Immediate(v),
            next: from,
        }),
    }
}

// After `#`.
fn immediate(s: &[u8], from: Cursor) -> Option<Read<Written>>
    ensures { Goes s.now (W.value hash) from.at result }
{
    let Read { value: v, next } = value(s, from)?;
    after_hash(s, v, next)
}

pub(crate) fn operand(s: &[u8], from: Cursor) -> Option<Read<Written>>
    ensures { Goes s.now W.operand from.at result }
{
    let Read { value: mark, next } = mark_at(s, from)?;
    match mark {
        b'#' => immediate(s, next),
        b'.' => register(s, next),
        b'/' => value_alone(s, next, Written::Memory),
        b'[' => indirect(s, next),
        b'$' => value_alone(s, next, Written::Relative),
        _ => None,
    }
}
