// A line, built in lent bytes: each method adds a text after what it holds.
#![tactic(auto)]

ghost use Rattle.std.specs.Prelude.{length};
ghost use Rattle.line.specs.Text.{decimal_of, next_of};
ghost use Rattle.line.specs.Inside.{Room, Adds};

mod answers;
mod items;
mod reading;
mod whole;

pub use items::Item;
pub use reading::read_full;
pub use whole::{answer_line, hex_line, list_line, list_line_in};

// The first `len` of the bytes hold it so far.
#[derive(Drop)]
pub struct Line<'a> {
    pub bytes: &'a mut [u8],
    pub len: usize,
}

impl<'a> Line<'a> {
    // Bytes as they are.
    pub fn put(&mut self, text: &[u8])
        requires { Room (length text.now) self.old }
        ensures { Adds text.now (length text.now) self.old self.new }
    {
        let end = self.len + text.len();
        self.bytes[self.len..end].copy_from_slice(text);
        self.len = end;
    }

    pub fn put_decimal(&mut self, n: u64)
        requires { Room 20 self.old }
        ensures { Adds (decimal_of n) 20 self.old self.new }
    {
        let mut digits = [0u8; 20];
        let k = io::decimal(n, &mut digits);
        self.put(&digits[..k]);
    }

    // A space and a number.
    pub fn put_next(&mut self, n: u64)
        requires { Room 21 self.old }
        ensures { Adds (next_of n) 21 self.old self.new }
    {
        self.put(b" ");
        self.put_decimal(n);
    }
}
