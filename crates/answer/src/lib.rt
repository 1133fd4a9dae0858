// What a public call answers: accepted, or refused for one of the papers' reasons, of which 4 and 5 carry a place and 12 its shortage and group.
#![tactic(auto)]

ghost use Rattle.std.specs.Prelude.{◌≡◌};
ghost use Rattle.answer.specs.declared.Reply.{Reply};
ghost use Rattle.answer.specs.Answer.{number, shortage, group, place, reply, item_of, field_of};

// Where a book is wrong: which bus or branch, numbered from 0, and which of its fields, numbered from 1 in layout order.
#[derive(Clone, Copy, Debug, PartialEq, Eq)]
pub struct Place {
    pub item: usize,
    pub field: u8,
}

// Why a call was refused, in the order of the papers' numbers. Of the group of 12, bus k is bit 7 - k mod 8 of byte k / 8.
#[derive(Clone, Copy, Debug, PartialEq, Eq)]
pub enum Refusal {
    WrongLength,
    CountsOutside,
    HeaderFill,
    BusWrong(Place),
    BranchWrong(Place),
    TailFill,
    NotBalanced,
    TooShort,
    NoSuchBranch,
    AlreadyOut,
    FlowUnfit,
    Overloaded { kw: u32, group: [u8; 16] },
    ListsUneven,
    NoSuchSupply,
    AdvanceTooFar,
    SupplyOutside,
    AlreadyIn,
    RatingsLost,
    NoTwoBuses,
    InjectionOutside,
    PercentOutside,
}

pub type Answer = Result<(), Refusal>;

impl Refusal {
    // The number that the papers give it.
    pub fn number(self) -> u8
        ensures { result ≡ number self }
    {
        match self {
            Refusal::WrongLength => 1,
            Refusal::CountsOutside => 2,
            Refusal::HeaderFill => 3,
            Refusal::BusWrong(_) => 4,
            Refusal::BranchWrong(_) => 5,
            Refusal::TailFill => 6,
            Refusal::NotBalanced => 7,
            Refusal::TooShort => 8,
            Refusal::NoSuchBranch => 9,
            Refusal::AlreadyOut => 10,
            Refusal::FlowUnfit => 11,
            Refusal::Overloaded { kw: _, group: _ } => 12,
            Refusal::ListsUneven => 13,
            Refusal::NoSuchSupply => 14,
            Refusal::AdvanceTooFar => 15,
            Refusal::SupplyOutside => 16,
            Refusal::AlreadyIn => 17,
            Refusal::RatingsLost => 18,
            Refusal::NoTwoBuses => 19,
            Refusal::InjectionOutside => 20,
            Refusal::PercentOutside => 21,
        }
    }

    // The kW and the group of 12: the others have none.
    pub fn shortage(self) -> u32
        ensures { result ≡ shortage self }
    {
        match self {
            Refusal::Overloaded { kw, group: _ } => kw,
            _ => 0,
        }
    }

    pub fn group(self) -> [u8; 16]
        ensures { result ≡ group self }
    {
        match self {
            Refusal::Overloaded { kw: _, group } => group,
            _ => [0u8; 16],
        }
    }

    // Where the book is wrong, for the two that say so.
    pub fn place(self) -> Option<Place>
        ensures { result ≡ place self }
    {
        match self {
            Refusal::BusWrong(place) | Refusal::BranchWrong(place) => Some(place),
            _ => None,
        }
    }
}

// An answer in its parts, as a line or a caller in C is told it. Any four may stand here, whether or not a call ends with them.
#[derive(Clone, Copy, Debug, PartialEq, Eq)]
pub struct Reply {
    pub number: u8,
    pub shortage: u32,
    pub group: [u8; 16],
    pub place: Option<Place>,
}

// What can be told: an answer, and any reply in place of one.
pub trait ToReply: Copy {
    ghost reply: { Self → Reply };

    fn to_reply(self) -> Reply
        ensures { result ≡ reply self };
}

impl ToReply for Reply {
    ghost reply = { λ t. t };

    fn to_reply(self) -> Reply {
        self
    }
}

// 0, no shortage, an empty group and no place where the call was accepted.
impl ToReply for Answer {
    ghost reply = { reply };

    fn to_reply(self) -> Reply {
        match self {
            Ok(()) => Reply {
                number: 0,
                shortage: 0,
                group: [0u8; 16],
                place: None,
            },
            Err(why) => Reply {
                number: why.number(),
                shortage: why.shortage(),
                group: why.group(),
                place: why.place(),
            },
        }
    }
}

pub fn number_of<A: ToReply>(answer: A) -> u8
    ensures { result ≡ (A.reply answer).number }
{
    answer.to_reply().number
}

pub fn shortage_of<A: ToReply>(answer: A) -> u32
    ensures { result ≡ (A.reply answer).shortage }
{
    answer.to_reply().shortage
}

pub fn group_of<A: ToReply>(answer: A) -> [u8; 16]
    ensures { result ≡ (A.reply answer).group }
{
    answer.to_reply().group
}

pub fn place_of<A: ToReply>(answer: A) -> Option<Place>
    ensures { result ≡ (A.reply answer).place }
{
    answer.to_reply().place
}

// A place in two numbers: both are 0 where there is none, which no field is.
pub fn item_of(place: Option<Place>) -> usize
    ensures { result ≡ item_of place }
{
    place.map_or(0, |at| at.item)
}

pub fn field_of(place: Option<Place>) -> u8
    ensures { result ≡ field_of place }
{
    place.map_or(0, |at| at.field)
}
