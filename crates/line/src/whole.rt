// Whole lines: each is built in bytes enough for its longest text and a newline, and written to a printer, as standard output, at once.
// How long its text is comes back, or why the write failed.
ghost use Rattle.std.specs.Prelude.{[], ◌∷◌, ◌++◌, ◌≡◌, ◌+◌, ◌*◌, ◌≤◌, length, IfOk, flat_map};
ghost use Rattle.line.specs.Text.{items_text, number_room, number_text, hex_text};
ghost use Rattle.line.specs.AnswerText.{reply_text};
ghost use Rattle.line.specs.Inside.{Added, Room, Adds};

use crate::{Item, Line};
use answer::ToReply;
use std::io;

impl<'a> Line<'a> {
    // The newline, 10, is added first, so that line and newline are one write, and stand in the lent bytes even where the write fails; how many bytes were
    // handed to it comes back.
    pub fn write<R: Print>(&mut self, rt: &R) -> io::Result<usize>
        requires { Room 1 self.old }
        ensures added { Adds (10 ∷ []) 1 self.old self.new }
        ensures value { IfOk result (λ n. n ≡ self.old.len + 1) }
    {
        self.put(b"\n");
        self.hand_over(rt)?;
        Ok(self.len)
    }

    fn hand_over<R: Print>(&self, rt: &R) -> io::Result<()>
        requires { Room 0 self.now }
    {
        rt.write_all(&self.bytes[..self.len])
    }

    // A number where there is one.
    fn put_number(&mut self, number: Option<usize>)
        requires { Room (number_room number) self.old }
        ensures { Adds (number_text number) (number_room number) self.old self.new }
    {
        if let Some(n) = number {
            // A cast: std has no `From` from a `usize`.
            self.put_next(n as u64);
        }
    }
}

// A word and what is told of an answer: its number, the shortage, the group, the place.
pub fn answer_line<R: Print, A: ToReply>(rt: &R, word: &[u8], answer: A) -> io::Result<usize>
    requires { length word.now ≤ 10 }
    ensures { IfOk result (λ n. n ≡ length (word.now ++ reply_text (A.reply answer))) }
{
    let mut bytes = [0u8; 2804];
    let mut line = Line {
        bytes: &mut bytes,
        len: 0,
    };
    line.put(word);
    line.put_answer(answer);
    let end = line.len;
    line.write(rt)?;
    Ok(end)
}

// A word and the numbers of a list. The bytes are enough for the longest, and all are cleared for each line: a short list costs less in lent ones.
pub fn list_line<R: Print, T: Item>(rt: &R, word: &[u8], items: &[T]) -> io::Result<usize>
    requires { (length word.now ≤ 10) × (T.most * length items.now ≤ 26880) }
    ensures { IfOk result (λ n. n ≡ length word.now + length (flat_map T.text items.now)) }
{
    let mut bytes = [0u8; 26891];
    list_line_in(rt, &mut bytes, word, items)
}

// The same in lent bytes, as few as the list may want: they hold it, newline and all, even where the write fails.
pub fn list_line_in<R: Print, T: Item>(
    rt: &R,
    out: &mut [u8],
    word: &[u8],
    items: &[T],
) -> io::Result<usize>
    requires { length word.now + T.most * length items.now + 1 ≤ length out.old }
    ensures added { Added (items_text T.text word.now items.now) out.old 0 out.new (length (items_text T.text word.now items.now)) }
    ensures value { IfOk result (λ n. n ≡ length word.now + length (flat_map T.text items.now)) }
{
    let mut line = Line { bytes: out, len: 0 };
    line.put(word);
    line.put_all(items);
    let end = line.len;
    line.write(rt)?;
    Ok(end)
}

// A word, a number where there is one, and bytes in hex: the lent bytes hold them, newline and all, even where the write fails.
pub fn hex_line<R: Print>(
    rt: &R,
    out: &mut [u8],
    word: &[u8],
    number: Option<usize>,
    bytes: &[u8],
) -> io::Result<usize>
    requires { length word.now + number_room number + 2 * length bytes.now + 2 ≤ length out.old }
    ensures added { Added (hex_text word.now number bytes.now) out.old 0 out.new (length (hex_text word.now number bytes.now)) }
    ensures value { IfOk result (λ n. n + 1 ≡ length (hex_text word.now number bytes.now)) }
{
    let mut line = Line { bytes: out, len: 0 };
    line.put(word);
    line.put_number(number);
    line.put(b" ");
    line.put_all(bytes);
    let end = line.len;
    line.write(rt)?;
    Ok(end)
}
