// Moves the tail on standard input: prints the tail of 320 bytes that holds the same state, in hexadecimal, or the refusal.
#![tactic(auto)]

ghost use Rattle.std.specs.Prelude.{◌≡◌, ◌≤◌, ◌<◌, length, take};
ghost use Rattle.form.specs.Form.{narrow, tail_length};
ghost use Rattle.move_tail.specs.Line.{moved_line};

use form::TAIL;
use frame::put_answer;
use input::read_full;
use number::Numbered;
use start::move_tail;
use std::io;
use std::io::Read;

// Room for two digits a byte, and the line's end.
const TEXT: usize = 2 * TAIL + 1;

type Text = [u8; TEXT];

// Puts the line of a tail at the front of a text. Answers its length.
fn put_moved(tail: &[u8], moved: &mut [u8; TAIL], text: &mut Text) -> usize
    ensures { (result ≤ length text.new) × (take result text.new ≡ moved_line tail.now) }
{
    let answer = move_tail(tail, moved).map_err(Numbered::from);
    put_answer(answer, moved, text, 0)
}

// Writes a text out, which must be the line of the tail. The tail is handed in so that the contract can say so.
fn write_moved(rt: &impl Print, tail: &[u8], text: &[u8]) -> io::Result<()>
    requires { text.now ≡ moved_line tail.now }
{
    rt.write_all(text)
}

// Reads until the buffer is full or the input ends. It has room for more than a tail of 59 bytes, so that one that is too long is refused.
fn move_over(
    rt: &impl Print,
    reader: &mut impl Read,
    tail: &mut [u8],
    moved: &mut [u8; TAIL],
    text: &mut Text,
) -> io::Result<()>
    requires { tail_length narrow < length tail.old }
{
    let length = read_full(reader, tail)?;
    let end = put_moved(&tail[..length], moved, text);
    write_moved(rt, &tail[..length], &text[..end])
}

fn main(rt: HostRuntime) -> io::Result<()> {
    let mut tail = [0u8; 60];
    let mut moved = [0u8; TAIL];
    let mut text = [0u8; TEXT];
    move_over(&rt, &mut rt.stdin(), &mut tail, &mut moved, &mut text)
}
