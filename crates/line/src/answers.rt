// The text of a group, of a place and of an answer, added to a line.
ghost use Rattle.line.specs.Inside.{Room, Adds};
ghost use Rattle.line.specs.AnswerText.{group_text, place_text, reply_text};

use crate::Line;
use answer::{Place, ToReply};

impl<'a> Line<'a> {
    // The number of buses in the group, and these in rising order.
    pub fn put_group(&mut self, group: [u8; 16])
        requires { Room 2709 self.old }
        ensures { Adds (group_text group) 2709 self.old self.new }
    {
        // A cast, here and in the other lines: std has no `From` from a `usize`.
        let count = bits::count(group);
        self.put_next(count as u64);
        for i in 0..128usize {
            if bits::is_set(&group, i) {
                self.put_next(i as u64);
            }
        }
    }

    // The item and the field of a place, and nothing where there is none.
    pub fn put_place(&mut self, place: Option<Place>)
        requires { Room 42 self.old }
        ensures { Adds (place_text place) 42 self.old self.new }
    {
        if let Some(wrong) = place {
            self.put_next(wrong.item as u64);
            self.put_next(u64::from(wrong.field));
        }
    }

    // What is told of an answer: its number, its shortage, its group and its place.
    pub fn put_answer<A: ToReply>(&mut self, answer: A)
        requires { Room 2793 self.old }
        ensures { Adds (reply_text (A.reply answer)) 2793 self.old self.new }
    {
        let reply = answer.to_reply();
        self.put_next(u64::from(reply.number));
        self.put_next(u64::from(reply.shortage));
        self.put_group(reply.group);
        self.put_place(reply.place);
    }
}
