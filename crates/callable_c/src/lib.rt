// The calls of `callable` under C's calling convention, for programs in other languages to link, each under its own name and with its own clauses.
// A slice is a pointer and a length; the answer comes back as its number, its shortage, its group and its place. Item and field are both 0 where the
// answer has no place.
#![tactic(auto)]

ghost use Rattle.answer.specs.Answer.{no_group};
ghost use Rattle.layout.specs.Form.{form_of};
ghost use Rattle.forms.specs.Move.{BookMoved};
ghost use Rattle.state.specs.Call.{lent};
ghost use Rattle.screen.specs.Promise.{ScreenEnds};
ghost use Rattle.outage.specs.Promise.{TakeEnds};
ghost use Rattle.restore.specs.Promise.{BackEnds};
ghost use Rattle.transfer.specs.Promise.{TransferEnds};
ghost use Rattle.callable.specs.Promise.{SaidInParts};

#[unsafe(no_mangle)]
pub extern "C" fn callable_screen(
    percent: u32,
    book: &[u8],
    flow: &mut [i32],
    table: &mut [u8],
    shortage: &mut u32,
    group: &mut [u8; 16],
    item: &mut usize,
    field: &mut u8,
) -> u8
    ensures { SaidInParts (ScreenEnds percent (lent book.now flow.old table.old) (lent book.now flow.new table.new)) result shortage.new group.new item.new field.new }
{
    callable::callable_screen(percent, book, flow, table, shortage, group, item, field)
}

#[unsafe(no_mangle)]
pub extern "C" fn callable_take_out(
    percent: u32,
    book: &mut [u8],
    flow: &mut [i32],
    table: &mut [u8],
    branch: usize,
    shortage: &mut u32,
    group: &mut [u8; 16],
    item: &mut usize,
    field: &mut u8,
) -> u8
    ensures { SaidInParts (TakeEnds percent branch (lent book.old flow.old table.old) (lent book.new flow.new table.new)) result shortage.new group.new item.new field.new }
{
    callable::callable_take_out(
        percent, book, flow, table, branch, shortage, group, item, field,
    )
}

#[unsafe(no_mangle)]
pub extern "C" fn callable_bring_back(
    percent: u32,
    book: &mut [u8],
    flow: &[i32],
    table: &mut [u8],
    branch: usize,
    shortage: &mut u32,
    group: &mut [u8; 16],
    item: &mut usize,
    field: &mut u8,
) -> u8
    ensures { SaidInParts (BackEnds percent branch (lent book.old flow.now table.old) (lent book.new flow.now table.new)) result shortage.new group.new item.new field.new }
{
    callable::callable_bring_back(
        percent, book, flow, table, branch, shortage, group, item, field,
    )
}

#[unsafe(no_mangle)]
pub extern "C" fn callable_move_load(
    percent: u32,
    book: &mut [u8],
    flow: &mut [i32],
    table: &mut [u8],
    up: usize,
    down: usize,
    kw: u32,
    shortage: &mut u32,
    group: &mut [u8; 16],
    item: &mut usize,
    field: &mut u8,
) -> u8
    ensures { SaidInParts (TransferEnds percent up down kw (lent book.old flow.old table.old) (lent book.new flow.new table.new)) result shortage.new group.new item.new field.new }
{
    callable::callable_move_load(
        percent, book, flow, table, up, down, kw, shortage, group, item, field,
    )
}

// Form 1 is the new one, as the layout bit has it, and any other number asks for the old one. A move shows neither shortage nor group.
#[unsafe(no_mangle)]
pub extern "C" fn callable_move_book(
    book: &[u8],
    form: u8,
    out: &mut [u8],
    item: &mut usize,
    field: &mut u8,
) -> u8
    ensures { SaidInParts (BookMoved book.now (form_of form) out.old out.new) result 0 no_group item.new field.new }
{
    callable::callable_move_book(book, form, out, item, field)
}
