// The screen, the outage call, the return, the move of load and that of a book to a form, with the answer in its parts: what `callable_c` exports
// under C's calling convention, for programs in other languages to link.
// The answer comes back as its number, its shortage, its group and its place. Item and field are both 0 where the answer has no place.
// What a call is lent stays apart, as C hands it on; so do the calls themselves take it.
#![tactic(auto)]

ghost use Rattle.answer.specs.Answer.{place_of, no_group};
ghost use Rattle.layout.specs.Form.{form_of};
ghost use Rattle.forms.specs.Move.{BookMoved};
ghost use Rattle.state.specs.Call.{lent};
ghost use Rattle.screen.specs.Promise.{ScreenEnds};
ghost use Rattle.outage.specs.Promise.{TakeEnds};
ghost use Rattle.restore.specs.Promise.{BackEnds};
ghost use Rattle.transfer.specs.Promise.{TransferEnds};
ghost use Rattle.callable.specs.Promise.{PlaceTold, SaidInParts};
ghost use Rattle.callable.specs.Inside.{Parts};

use answer::Answer;
use layout::Form;

// Where a book is wrong, in two numbers.
fn tell_place(answer: Answer, item: &mut usize, field: &mut u8)
    ensures { PlaceTold (place_of answer) item.new field.new }
{
    let place = answer::place_of(answer);
    *item = answer::item_of(place);
    *field = answer::field_of(place);
}

// An answer in its parts.
fn tell(
    answer: Answer,
    shortage: &mut u32,
    group: &mut [u8; 16],
    item: &mut usize,
    field: &mut u8,
) -> u8
    ensures { Parts answer result shortage.new group.new item.new field.new }
{
    *shortage = answer::shortage_of(answer);
    *group = answer::group_of(answer);
    tell_place(answer, item, field);
    answer::number_of(answer)
}

pub fn callable_screen(
    percent: u32,
    book: &[u8],
    flow: &mut [i32],
    table: &mut [u8],
    shortage: &mut u32,
    group: &mut [u8; 16],
    item: &mut usize,
    field: &mut u8,
) -> u8
    ensures { SaidInParts (ScreenEnds percent (lent book.now flow.old table.old) (lent book.now flow.new table.new)) result shortage.new group.new item.new field.new }
{
    let answer = screen::screen(percent, book, flow, table);
    tell(answer, shortage, group, item, field)
}

pub fn callable_take_out(
    percent: u32,
    book: &mut [u8],
    flow: &mut [i32],
    table: &mut [u8],
    branch: usize,
    shortage: &mut u32,
    group: &mut [u8; 16],
    item: &mut usize,
    field: &mut u8,
) -> u8
    ensures { SaidInParts (TakeEnds percent branch (lent book.old flow.old table.old) (lent book.new flow.new table.new)) result shortage.new group.new item.new field.new }
{
    let answer = outage::take_out(percent, book, flow, table, branch);
    tell(answer, shortage, group, item, field)
}

pub fn callable_bring_back(
    percent: u32,
    book: &mut [u8],
    flow: &[i32],
    table: &mut [u8],
    branch: usize,
    shortage: &mut u32,
    group: &mut [u8; 16],
    item: &mut usize,
    field: &mut u8,
) -> u8
    ensures { SaidInParts (BackEnds percent branch (lent book.old flow.now table.old) (lent book.new flow.now table.new)) result shortage.new group.new item.new field.new }
{
    let answer = restore::bring_back(percent, book, flow, table, branch);
    tell(answer, shortage, group, item, field)
}

pub fn callable_move_load(
    percent: u32,
    book: &mut [u8],
    flow: &mut [i32],
    table: &mut [u8],
    up: usize,
    down: usize,
    kw: u32,
    shortage: &mut u32,
    group: &mut [u8; 16],
    item: &mut usize,
    field: &mut u8,
) -> u8
    ensures { SaidInParts (TransferEnds percent up down kw (lent book.old flow.old table.old) (lent book.new flow.new table.new)) result shortage.new group.new item.new field.new }
{
    let answer = transfer::move_load(percent, book, flow, table, up, down, kw);
    tell(answer, shortage, group, item, field)
}

// Form 1 is the new one, as the layout bit has it, and any other number asks for the old one. A move shows neither shortage nor group.
pub fn callable_move_book(
    book: &[u8],
    form: u8,
    out: &mut [u8],
    item: &mut usize,
    field: &mut u8,
) -> u8
    ensures { SaidInParts (BookMoved book.now (form_of form) out.old out.new) result 0 no_group item.new field.new }
{
    let answer = forms::move_book(book, Form::from(u32::from(form)), out);
    tell_place(answer, item, field);
    answer::number_of(answer)
}
