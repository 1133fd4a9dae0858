// The items of a list, added to a line one after another: numbers with a space before each, bytes as two hex digits each.
ghost use Rattle.std.specs.Prelude.{ℕ, ◌∷◌, List, ◌*◌, length, flat_map};
ghost use Rattle.line.specs.Text.{signed_of, hex_of, next_of};
ghost use Rattle.line.specs.Inside.{Room, Adds};

use crate::Line;

// What a line can hold a list of: the text of one, and the most bytes that it has.
pub trait Item: Copy {
    ghost text: { Self → List ℕ };

    ghost most: { ℕ };

    fn put(self, line: &mut Line<'_>)
        requires { Room most line.old }
        ensures { Adds (text self) most line.old line.new };
}

// A space and the number.
impl Item for u32 {
    ghost text = { next_of };

    ghost most = { 21 };

    fn put(self, line: &mut Line<'_>) {
        line.put_next(u64::from(self));
    }
}

// A space, and a minus before the size of a number below 0.
impl Item for i32 {
    ghost text = { λ n. 32 ∷ signed_of n };

    ghost most = { 22 };

    fn put(self, line: &mut Line<'_>) {
        if 0 <= self {
            line.put_next(u64::from(self.unsigned_abs()));
        } else {
            line.put(b" -");
            line.put_decimal(u64::from(self.unsigned_abs()));
        }
    }
}

// Two hex digits.
impl Item for u8 {
    ghost text = { hex_of };

    ghost most = { 2 };

    fn put(self, line: &mut Line<'_>) {
        let mut digits = [0u8; 16];
        let k = io::hex(u64::from(self), 2, &mut digits);
        line.put(&digits[..k]);
    }
}

impl<'a> Line<'a> {
    pub fn put_all<T: Item>(&mut self, items: &[T])
        requires { Room (T.most * length items.now) self.old }
        ensures { Adds (flat_map T.text items.now) (T.most * length items.now) self.old self.new }
    {
        for item in items {
            item.put(self);
        }
    }
}
